// The contacts of a conforming frame: each read once, for its record and for its place in the table.
ghost use Rattle.std.specs.Prelude.{◌*◌, ◌≤◌, length};
ghost use Rattle.house.specs.Fields.{record_bytes};
ghost use Rattle.contacts.specs.Ruling.{table_from};
ghost use Rattle.runs.specs.Runs.{CarriesContacts, CarriesFrame};

use house::{Head, RECORD_BYTES};

// A record for each of the n contacts at the front of rest, and each contact stored with its next state. Answers what is behind them.
fn carry_contacts<'a>(
    out: &mut [u8],
    rest: &'a [u8],
    n: usize,
    states: &mut [u8; 256],
    xs: &mut [i32; 256],
    ys: &mut [i32; 256],
) -> &'a [u8]
    requires { record_bytes * n ≤ length out.old }
    ensures { CarriesContacts n rest.now result.now (table_from states.old xs.old ys.old) (table_from states.new xs.new ys.new) out.old out.new }
{
    let mut pos: usize = 0;
    let mut left = rest;
    for _ in 0..n {
        let Ok((contact, behind)) = touch::read_contact(left, false) else {
            return rest;
        };
        packing::write_contact(&mut out[pos..], house::TOUCHED, contact);
        moves::move_contact(contact, states, xs, ys);
        pos += RECORD_BYTES;
        left = behind;
    }
    left
}

// The records of a frame, where they are to be written and there is room for all, and its contacts in the table.
pub(crate) fn carry<'a>(
    out: &mut [u8],
    wet: bool,
    head: Head,
    rest: &'a [u8],
    states: &mut [u8; 256],
    xs: &mut [i32; 256],
    ys: &mut [i32; 256],
) -> &'a [u8]
    ensures { CarriesFrame wet head rest.now result.now (table_from states.old xs.old ys.old) (table_from states.new xs.new ys.new) out.old out.new }
{
    let count = head.count as usize;
    if wet && RECORD_BYTES * (count + 1) <= out.len() {
        packing::write_head(out, head);
        return carry_contacts(&mut out[RECORD_BYTES..], rest, count, states, xs, ys);
    }
    moves::apply(rest, count, false, states, xs, ys)
}
