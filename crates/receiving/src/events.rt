// The events that have no frames.
ghost use Rattle.std.specs.Prelude.{ℕ, ◌≡◌, true, List};
ghost use Rattle.machine.specs.Machine.{Arrays};
ghost use Rattle.contacts.specs.Ruling.{arrays_from};
ghost use Rattle.receiver.specs.Receive.{of_parts, effect};
ghost use Rattle.channel.specs.Marks.{off};
ghost use Rattle.receiver.specs.Events.{turned, Gives, ready_effect, dismiss_effect};
ghost use Rattle.receiving.specs.Dismissal.{held_by};

use messages::Ready;
use receiver::{Marks, Turn, quiet, refuse};

// The settings, which a receiver takes once.
fn settle(marks: Marks, settings: Ready) -> Marks
    ensures { result ≡ record { ready = 1; begun = marks.begun; ignoring = marks.ignoring; settings = settings } }
{
    Marks {
        ready: 1,
        settings,
        ..marks
    }
}

// The body of a client ready.
fn receive_settings(marks: Marks, body: &[u8]) -> Turn
    ensures { (a : Arrays) (d : List ℕ) → Gives (of_parts marks a) (ready_effect (of_parts marks a) body.now) d (turned result a) d }
{
    match messages::read_ready_body(body) {
        Ok(settings) => quiet(settle(marks, settings), 0, 0),
        Err(e) => refuse(marks, e.number()),
    }
}

// Client ready, all that an unready receiver takes.
pub(crate) fn receive_ready(marks: Marks, message: &[u8]) -> Turn
    ensures { off marks.ready ≡ true → (a : Arrays) (d : List ℕ) → Gives (of_parts marks a) (effect (of_parts marks a) message.now) d (turned result a) d }
{
    match messages::read_header(message, messages::CLIENT_READY, messages::CLIENT_READY) {
        Ok((_, body)) => receive_settings(marks, body),
        Err(e) => refuse(marks, e.number()),
    }
}

// The id of an accepted dismissal leaves the set.
#[tactic(auto, unfolding(machine::specs::Held::held_without))]
fn forget(refusal: u8, id: u8, held: &mut [u8; 256])
    ensures { held.new ≡ held_by refusal held.old id }
{
    if refusal == 0 {
        let own = id as usize;
        held[own] = 0;
    }
}

// Dismiss: a hovering contact goes out of range, and the id leaves the set.
pub(crate) fn receive_dismiss(
    marks: Marks,
    body: &[u8],
    output: &mut [u8],
    states: &mut [u8; 256],
    xs: &mut [i32; 256],
    ys: &mut [i32; 256],
    held: &mut [u8; 256],
) -> Turn
    ensures { Gives (of_parts marks (arrays_from states.old xs.old ys.old held.old)) (dismiss_effect (of_parts marks (arrays_from states.old xs.old ys.old held.old)) body.now) output.old (turned result (arrays_from states.new xs.new ys.new held.new)) output.new }
{
    match messages::read_dismiss_body(body) {
        Err(e) => refuse(marks, e.number()),
        Ok(id) => {
            let written = moves::dismiss(output, id, states, xs, ys);
            forget(written.refusal, id, held);
            quiet(marks, written.refusal, written.bytes / house::RECORD_BYTES)
        }
    }
}
