// The records that no message carries: cancels and dismissals.
ghost use Rattle.std.specs.Prelude.{◌≡◌, []};
ghost use Rattle.slices.specs.Writing.{bytes, Writes};
ghost use Rattle.machine.specs.Table.{place_at};
ghost use Rattle.machine.specs.Machine.{cancel_flags, cancel_bytes, cancels};
ghost use Rattle.contacts.specs.Touch.{bare_contact, touch_view};
ghost use Rattle.contacts.specs.Ruling.{table_from};
ghost use Rattle.moves.specs.Moves.{Dismisses};

use crate::table::store;
use house::{Contact, Point, RECORD_BYTES, Sides};
use paper::Refusal;
use slices::Written;

// A contact as it stands in the table, with no optional field.
fn stored_contact(flags: u8, id: u8, xs: &[i32; 256], ys: &[i32; 256]) -> Contact
    ensures { result ≡ bare_contact flags id (place_at (table_from [] xs.now ys.now) id) }
{
    let at = id as usize;
    let place = Point {
        x: xs[at],
        y: ys[at],
    };
    let sides = Sides {
        left: 0,
        top: 0,
        right: 0,
        bottom: 0,
    };
    Contact {
        flags,
        present: 0,
        id,
        place,
        sides,
        orientation: 0,
        pressure: 0,
    }
}

// The flags that end a contact in its state.
fn cancel_flags(state: u8) -> u8
    ensures { result ≡ cancel_flags state }
{
    if state == states::ENGAGED {
        return 0x24;
    }
    0x22
}

// A contact's record of kind 2, where it is active.
fn write_cancel(
    out: &mut [u8],
    id: u8,
    states: &[u8; 256],
    xs: &[i32; 256],
    ys: &[i32; 256],
) -> Written
    ensures { Writes (bytes (cancel_bytes touch_view (table_from states.now xs.now ys.now) id)) result out.old out.new }
{
    let i = id as usize;
    let state = states[i];
    if state == states::OUT {
        return Written::done(0);
    }
    let contact = stored_contact(cancel_flags(state), id, xs, ys);
    packing::write_contact(out, house::CANCELLED, contact)
}

// For each active contact by rising id a record of kind 2, where there is room for all.
pub fn write_cancels(
    out: &mut [u8],
    states: &[u8; 256],
    xs: &[i32; 256],
    ys: &[i32; 256],
) -> Written
    ensures { Writes (bytes (cancels touch_view (table_from states.now xs.now ys.now))) result out.old out.new }
{
    let active = contacts::count_active(states) as usize;
    if out.len() < RECORD_BYTES * active {
        return Written::refused(Refusal::NoRoom);
    }
    let mut at: usize = 0;
    for id in 0..=255 {
        let written = write_cancel(&mut out[at..], id, states, xs, ys);
        at += written.bytes;
    }
    Written::done(at)
}

// A hovering contact goes out of range with a record of kind 3, where there is room for it; otherwise nothing happens.
pub fn dismiss(
    out: &mut [u8],
    id: u8,
    states: &mut [u8; 256],
    xs: &mut [i32; 256],
    ys: &mut [i32; 256],
) -> Written
    ensures { Dismisses id result out.old out.new (table_from states.old xs.old ys.old) (table_from states.new xs.new ys.new) }
{
    let i = id as usize;
    if states[i] != states::HOVERING {
        return Written::done(0);
    }
    if out.len() < RECORD_BYTES {
        return Written::refused(Refusal::NoRoom);
    }
    let contact = stored_contact(0x02, id, xs, ys);
    store(id, states::OUT, Point { x: 0, y: 0 }, states, xs, ys);
    packing::write_contact(out, house::DISMISSED, contact)
}
