// A touch message of a panel that is lent in parts: all is judged before it is written, and a refusal leaves the marks, the contacts and the output
// as they were.
#![tactic(auto)]

mod judging;

ghost use Rattle.contacts.specs.Ruling.{table_from};
ghost use Rattle.panels.specs.Panel.{panel_of_parts, touch_sending, SendsParts};
ghost use Rattle.panel_touch.specs.Judging.{AreFrames, Faults};

use judging::run_through;
use panels::{PanelMarks, Said};
use paper::{Milliseconds, Refusal};

// 17, then 11, over all the frames of records. The contacts are left as the frames leave them.
fn judge_frames(
    records: &[u8],
    marks: PanelMarks,
    states: &mut [u8; 256],
    xs: &mut [i32; 256],
    ys: &mut [i32; 256],
) -> Result<(), Refusal>
    requires { AreFrames records.now }
    ensures { Faults (panel_of_parts marks (table_from states.old xs.old ys.old)) records.now result (table_from states.new xs.new ys.new) }
{
    let settings = marks.settings;
    if !run_through(records, settings.most, states, xs, ys) {
        return Err(Refusal::Illegal);
    }
    if !panel_checks::offset_stands(records, settings.flags, marks.begun) {
        return Err(Refusal::BadOffset);
    }
    Ok(())
}

// A touch message of records: 10, 14, 15, 16, 17, 11, 7, 2, 13. The frames are run through on a copy of the contacts, which takes their place
// once the message is written.
pub fn write_touch_parts(
    marks: PanelMarks,
    out: &mut [u8],
    time: Milliseconds,
    records: &[u8],
    states: &mut [u8; 256],
    xs: &mut [i32; 256],
    ys: &mut [i32; 256],
) -> Said
    ensures { SendsParts (panel_of_parts marks (table_from states.old xs.old ys.old)) (touch_sending (panel_of_parts marks (table_from states.old xs.old ys.old)) time records.now) result (table_from states.new xs.new ys.new) out.old out.new }
{
    let frames = match panel_checks::check(marks.ready, marks.suspended, time, records) {
        Ok(frames) => frames,
        Err(e) => return panels::refuse(marks, e.number()),
    };
    let mut some_states = *states;
    let mut some_xs = *xs;
    let mut some_ys = *ys;
    if let Err(e) = judge_frames(records, marks, &mut some_states, &mut some_xs, &mut some_ys) {
        return panels::refuse(marks, e.number());
    }
    let message = writing::write_touch(out, time, records);
    if message.refusal != 0 {
        return panels::refuse(marks, message.refusal);
    }
    *states = some_states;
    *xs = some_xs;
    *ys = some_ys;
    Said {
        marks: PanelMarks {
            begun: channel::begun_after(marks.begun, frames),
            ..marks
        },
        written: message,
    }
}
