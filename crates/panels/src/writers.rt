// What is sent by a panel that is lent in parts, but for touch: each call judges all that it is given before it writes, and a refusal leaves the
// marks, the contacts and the output as they were.
ghost use Rattle.std.specs.Prelude.{◌≡◌, false, cond};
ghost use Rattle.channel.specs.Marks.{off};
ghost use Rattle.contacts.specs.Ruling.{table_from};
ghost use Rattle.machine.specs.Table.{Table};
ghost use Rattle.panels.specs.Panel.{panel_of_parts, ready_sending, dismiss_sending, SendsParts};

use crate::{PanelMarks, Said};
use house::Point;
use messages::Ready;
use paper::Refusal;
use slices::Written;

// A refusal, which leaves the marks as they were.
pub fn refuse(marks: PanelMarks, refusal: u8) -> Said
    ensures { result ≡ record { marks = marks; written = record { refusal = refusal; bytes = 0 } } }
{
    Said {
        marks,
        written: Written { refusal, bytes: 0 },
    }
}

// Whether a client ready may be written: after server ready, and once.
fn may_declare(greeted: u8, ready: u8) -> bool
    ensures { result ≡ cond (off greeted) false (off ready) }
{
    if greeted == 0 {
        return false;
    }
    ready == 0
}

// Client ready: 15, 8, 13. No contact is changed by it.
pub fn write_ready_parts(
    marks: PanelMarks,
    out: &mut [u8],
    flags: u32,
    version: u32,
    most: u16,
) -> Said
    ensures { (t : Table) → SendsParts (panel_of_parts marks t) (ready_sending (panel_of_parts marks t) (record { flags = flags; version = version; most = most })) result t out.old out.new }
{
    if !may_declare(marks.greeted, marks.ready) {
        return refuse(marks, Refusal::NotReady.number());
    }
    let settings = Ready {
        flags,
        version,
        most,
    };
    let written = message_writers::write_client_ready(out, settings);
    if written.refusal != 0 {
        return refuse(marks, written.refusal);
    }
    Said {
        marks: PanelMarks {
            ready: 1,
            settings,
            ..marks
        },
        written,
    }
}

// Dismiss: 15, 17, 13.
pub fn write_dismiss_parts(
    marks: PanelMarks,
    out: &mut [u8],
    id: u8,
    states: &mut [u8; 256],
    xs: &mut [i32; 256],
    ys: &mut [i32; 256],
) -> Said
    ensures { SendsParts (panel_of_parts marks (table_from states.old xs.old ys.old)) (dismiss_sending (panel_of_parts marks (table_from states.old xs.old ys.old)) id) result (table_from states.new xs.new ys.new) out.old out.new }
{
    if marks.ready == 0 {
        return refuse(marks, Refusal::NotReady.number());
    }
    if states[id as usize] != states::HOVERING {
        return refuse(marks, Refusal::Illegal.number());
    }
    let written = message_writers::write_dismiss(out, id);
    if written.refusal != 0 {
        return refuse(marks, written.refusal);
    }
    moves::store(id, states::OUT, Point { x: 0, y: 0 }, states, xs, ys);
    Said { marks, written }
}
