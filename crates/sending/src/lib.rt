// The panel's sending side, by value: a whole panel is taken apart, and its parts are lent to the call that does the work.
#![tactic(auto)]

ghost use Rattle.std.specs.Prelude.{◌≡◌};
ghost use Rattle.contacts.specs.Ruling.{table_from};
ghost use Rattle.panels.specs.Panel.{panel_marks, panel_of_parts, ready_sending, touch_sending, dismiss_sending, Takes, Sends};

use panel_touch::write_touch_parts;
use panels::{Panel, PanelMarks, take_parts, write_dismiss_parts, write_ready_parts};
use paper::Milliseconds;
use slices::Written;

// The panel after a message that arrived, and the refusal, 0 for none.
#[derive(Clone, Copy)]
pub struct Arrived {
    pub panel: Panel,
    pub refusal: u8,
}

// The panel after a call that writes, and what it wrote.
#[derive(Clone, Copy)]
pub struct Outgoing {
    pub panel: Panel,
    pub written: Written,
}

// What a panel has beside its contacts.
fn marks_of(panel: Panel) -> PanelMarks
    ensures { result ≡ panel_marks panel }
{
    PanelMarks {
        greeted: panel.greeted,
        ready: panel.ready,
        suspended: panel.suspended,
        begun: panel.begun,
        settings: panel.settings,
    }
}

// The panel that has these marks and contacts.
fn of_parts(marks: PanelMarks, states: [u8; 256], xs: [i32; 256], ys: [i32; 256]) -> Panel
    ensures { result ≡ panel_of_parts marks (table_from states xs ys) }
{
    Panel {
        greeted: marks.greeted,
        ready: marks.ready,
        suspended: marks.suspended,
        begun: marks.begun,
        settings: marks.settings,
        states,
        xs,
        ys,
    }
}

// A message that arrived: taken, or refused with nothing changed.
pub fn take(panel: Panel, message: &[u8]) -> Arrived
    ensures { Takes panel message.now result.panel result.refusal }
{
    let heard = take_parts(marks_of(panel), message);
    Arrived {
        panel: of_parts(heard.marks, panel.states, panel.xs, panel.ys),
        refusal: heard.refusal,
    }
}

// Client ready: 15, 8, 13.
pub fn write_ready(panel: Panel, out: &mut [u8], flags: u32, version: u32, most: u16) -> Outgoing
    ensures { Sends panel (ready_sending panel (record { flags = flags; version = version; most = most })) result.panel result.written out.old out.new }
{
    let said = write_ready_parts(marks_of(panel), out, flags, version, most);
    Outgoing {
        panel: of_parts(said.marks, panel.states, panel.xs, panel.ys),
        written: said.written,
    }
}

// A touch message of records: 10, 14, 15, 16, 17, 11, 7, 2, 13.
pub fn write_touch(panel: Panel, out: &mut [u8], time: Milliseconds, records: &[u8]) -> Outgoing
    ensures { Sends panel (touch_sending panel time records.now) result.panel result.written out.old out.new }
{
    let mut states = panel.states;
    let mut xs = panel.xs;
    let mut ys = panel.ys;
    let marks = marks_of(panel);
    let said = write_touch_parts(marks, out, time, records, &mut states, &mut xs, &mut ys);
    Outgoing {
        panel: of_parts(said.marks, states, xs, ys),
        written: said.written,
    }
}

// Dismiss: 15, 17, 13.
pub fn write_dismiss(panel: Panel, out: &mut [u8], id: u8) -> Outgoing
    ensures { Sends panel (dismiss_sending panel id) result.panel result.written out.old out.new }
{
    let mut states = panel.states;
    let mut xs = panel.xs;
    let mut ys = panel.ys;
    let marks = marks_of(panel);
    let said = write_dismiss_parts(marks, out, id, &mut states, &mut xs, &mut ys);
    Outgoing {
        panel: of_parts(said.marks, states, xs, ys),
        written: said.written,
    }
}
