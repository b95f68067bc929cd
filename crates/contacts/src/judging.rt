// A frame judged, and what becomes of it.
ghost use Rattle.std.specs.Prelude.{◌≡◌};
ghost use Rattle.contacts.specs.Ruling.{source, contacts_by, contacts_of, table_from, judged_on, judged_from, ruling_by};

use crate::scan::survey;
use crate::{Ruling, Survey};

// How many contacts are active after a frame, by what was found of it: where a rule was not broken, and they are not too many.
fn settle(found: Option<Survey>, active: u16, most: u16) -> Option<u16>
    ensures { result ≡ judged_on most active found }
{
    let found = found?;
    let came = active as u32 + found.came as u32;
    let after = came.checked_sub(found.gone as u32)?;
    if after <= most as u32 {
        return Some(after as u16);
    }
    None
}

// How many contacts are active after a frame of n contacts that conforms, read in records or in a message, of a table with so many; none of one
// that does not.
pub fn judge(
    rest: &[u8],
    n: u16,
    recorded: bool,
    states: &[u8; 256],
    xs: &[i32; 256],
    ys: &[i32; 256],
    most: u16,
    active: u16,
) -> Option<u16>
    ensures { result ≡ judged_from most active (table_from states.now xs.now ys.now) (contacts_by (source recorded) n rest.now) }
{
    let found = survey(rest, n, recorded, states, xs, ys);
    settle(found, active, most)
}

// What becomes of a frame of n contacts, which is judged or is not.
pub fn verdict_of(
    judged: bool,
    rest: &[u8],
    n: u16,
    states: &[u8; 256],
    xs: &[i32; 256],
    ys: &[i32; 256],
    most: u16,
    active: u16,
) -> Ruling
    ensures { result ≡ ruling_by judged (judged_from most active (table_from states.now xs.now ys.now) (contacts_of n rest.now)) }
{
    if !judged {
        return Ruling::Ignored;
    }
    match judge(rest, n, false, states, xs, ys, most, active) {
        Some(after) => Ruling::Injected(after),
        None => Ruling::Cancelled,
    }
}
