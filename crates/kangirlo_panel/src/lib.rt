// Behind the C face of the panel's sending side, the crate kangirlo_panel_c: each call of include/kangirlo.h that is lent a panel, a thin function over the call by
// value, with that call's contract. The panel is updated where it stands; beside each call stands one that is lent the panel in parts, the
// marks by value and the contacts where they stand.
#![tactic(auto)]

ghost use Rattle.std.specs.Prelude.{◌≡◌};
ghost use Rattle.machine.specs.Table.{Table};
ghost use Rattle.contacts.specs.Ruling.{table_from};
ghost use Rattle.panels.specs.Panel.{fresh_panel, panel_of_parts, ready_sending, touch_sending, dismiss_sending, Takes, TakesParts, Sends, SendsParts};

use panels::{Heard, Panel, PanelMarks, Said};
use paper::Milliseconds;
use slices::Written;

// A panel that has taken and written nothing.
pub fn kangirlo_panel_fresh() -> Panel
    ensures { result ≡ fresh_panel }
{
    panels::fresh()
}

// A message that arrived: taken, or refused with nothing changed. Answers the refusal, 0 for none.
pub fn kangirlo_panel_take(panel: &mut Panel, message: &[u8]) -> u8
    ensures { Takes panel.old message.now panel.new result }
{
    let arrived = sending::take(*panel, message);
    *panel = arrived.panel;
    arrived.refusal
}

// Client ready.
pub fn kangirlo_panel_write_ready(
    panel: &mut Panel,
    output: &mut [u8],
    flags: u32,
    version: u32,
    most: u16,
) -> Written
    ensures { Sends panel.old (ready_sending panel.old (record { flags = flags; version = version; most = most })) panel.new result output.old output.new }
{
    let outgoing = sending::write_ready(*panel, output, flags, version, most);
    *panel = outgoing.panel;
    outgoing.written
}

// A touch message of records.
pub fn kangirlo_panel_write_touch(
    panel: &mut Panel,
    output: &mut [u8],
    time: Milliseconds,
    records: &[u8],
) -> Written
    ensures { Sends panel.old (touch_sending panel.old time records.now) panel.new result output.old output.new }
{
    let outgoing = sending::write_touch(*panel, output, time, records);
    *panel = outgoing.panel;
    outgoing.written
}

// Dismiss.
pub fn kangirlo_panel_write_dismiss(panel: &mut Panel, output: &mut [u8], id: u8) -> Written
    ensures { Sends panel.old (dismiss_sending panel.old id) panel.new result output.old output.new }
{
    let outgoing = sending::write_dismiss(*panel, output, id);
    *panel = outgoing.panel;
    outgoing.written
}

// A message that arrived at a panel with these marks; its contacts are not needed.
pub fn kangirlo_panel_take_parts(marks: PanelMarks, message: &[u8]) -> Heard
    ensures { TakesParts marks message.now result }
{
    panels::take_parts(marks, message)
}

// Client ready, of a panel with these marks; its contacts are not needed.
pub fn kangirlo_panel_write_ready_parts(
    marks: PanelMarks,
    output: &mut [u8],
    flags: u32,
    version: u32,
    most: u16,
) -> Said
    ensures { (t : Table) → SendsParts (panel_of_parts marks t) (ready_sending (panel_of_parts marks t) (record { flags = flags; version = version; most = most })) result t output.old output.new }
{
    panels::write_ready_parts(marks, output, flags, version, most)
}

// A touch message of records, of a panel that is lent in parts.
pub fn kangirlo_panel_write_touch_parts(
    marks: PanelMarks,
    output: &mut [u8],
    time: Milliseconds,
    records: &[u8],
    states: &mut [u8; 256],
    xs: &mut [i32; 256],
    ys: &mut [i32; 256],
) -> Said
    ensures { SendsParts (panel_of_parts marks (table_from states.old xs.old ys.old)) (touch_sending (panel_of_parts marks (table_from states.old xs.old ys.old)) time records.now) result (table_from states.new xs.new ys.new) output.old output.new }
{
    panel_touch::write_touch_parts(marks, output, time, records, states, xs, ys)
}

// Dismiss, of a panel that is lent in parts.
pub fn kangirlo_panel_write_dismiss_parts(
    marks: PanelMarks,
    output: &mut [u8],
    id: u8,
    states: &mut [u8; 256],
    xs: &mut [i32; 256],
    ys: &mut [i32; 256],
) -> Said
    ensures { SendsParts (panel_of_parts marks (table_from states.old xs.old ys.old)) (dismiss_sending (panel_of_parts marks (table_from states.old xs.old ys.old)) id) result (table_from states.new xs.new ys.new) output.old output.new }
{
    panels::write_dismiss_parts(marks, output, id, states, xs, ys)
}
