// The commands carried out, one call of the panel for each. An entry of another length than its command has is passed over.
ghost use Rattle.std.specs.Prelude.{ℕ, ◌≡◌, true, List};
ghost use Rattle.commands.specs.Commands.{arrives, ready_in, touch_in, dismissal_in, passed_over, Obeys};

use crate::Obeyed;
use crate::parts::{lent_of, settings_in, time_in};
use panels::Panel;
use sending::Outgoing;
use slices::Written;

// The whole of a client ready's entry, and of a dismissal's; where a touch's records begin.
const READY_BYTES: usize = 13;

const DISMISSAL_BYTES: usize = 4;

const TOUCH_HEAD_BYTES: usize = 7;

// An entry that is no command changes nothing.
pub(crate) fn pass_over(panel: Panel) -> Obeyed
    ensures { result ≡ passed_over panel }
{
    Obeyed {
        panel,
        known: false,
        written: Written {
            refusal: 0,
            bytes: 0,
        },
    }
}

// What the panel answered to a command that writes.
fn told(outgoing: Outgoing) -> Obeyed
    ensures { result ≡ record { panel = outgoing.panel; known = true; written = outgoing.written } }
{
    Obeyed {
        panel: outgoing.panel,
        known: true,
        written: outgoing.written,
    }
}

// What arrived.
pub(crate) fn arrive(panel: Panel, message: &[u8]) -> Obeyed
    ensures { (d : List ℕ) → Obeys panel (arrives message.now) result d d }
{
    let arrived = sending::take(panel, message);
    Obeyed {
        panel: arrived.panel,
        known: true,
        written: Written {
            refusal: arrived.refusal,
            bytes: 0,
        },
    }
}

// Client ready.
pub(crate) fn declare(panel: Panel, entry: &[u8], out: &mut [u8]) -> Obeyed
    ensures { Obeys panel (ready_in entry.now) result out.old out.new }
{
    if entry.len() != READY_BYTES {
        return pass_over(panel);
    }
    let room = lent_of(entry, out.len());
    let settings = settings_in(entry);
    told(sending::write_ready(
        panel,
        &mut out[..room],
        settings.flags,
        settings.version,
        settings.most,
    ))
}

// Touch, of the records behind its head.
pub(crate) fn touch(panel: Panel, entry: &[u8], out: &mut [u8]) -> Obeyed
    ensures { Obeys panel (touch_in entry.now) result out.old out.new }
{
    if entry.len() < TOUCH_HEAD_BYTES {
        return pass_over(panel);
    }
    let room = lent_of(entry, out.len());
    let time = time_in(entry);
    told(sending::write_touch(panel, &mut out[..room], time, &entry[TOUCH_HEAD_BYTES..]))
}

// A dismissal.
pub(crate) fn dismiss(panel: Panel, entry: &[u8], out: &mut [u8]) -> Obeyed
    ensures { Obeys panel (dismissal_in entry.now) result out.old out.new }
{
    if entry.len() != DISMISSAL_BYTES {
        return pass_over(panel);
    }
    let room = lent_of(entry, out.len());
    told(sending::write_dismiss(panel, &mut out[..room], entry[3]))
}
