// Which values of a head and of a contact are well formed.
ghost use Rattle.std.specs.Prelude.{◌≡◌};
ghost use Rattle.well_formed.specs.WellFormed.{has, at_most, sides_well, head_well, contact_well, kind_well};
ghost use Rattle.well_formed.specs.Parts.{one_side_well, point_well};

use crate::signs::{is_above, is_zero};
use crate::{CONTACTS_MOST, ORIENTATION_MOST, PLACE_MOST, PRESSURE_MOST, SIDE_MOST};
use house::{CANCELLED, Contact, Head, Point, Sides, TOUCHED};

// Whether a head's count is one that a message can have.
pub(crate) fn is_head_well(head: Head) -> bool
    ensures { result ≡ head_well head }
{
    head.count <= CONTACTS_MOST
}

// Whether fieldsPresent has a bit; none is 0.
pub fn has_field(present: u16, bit: u16) -> bool
    ensures { result ≡ has bit present }
{
    if bit == 0 {
        return false;
    }
    present / bit % 2 == 1
}

// A number that is there is at most a limit, and one that is not is 0.
fn is_at_most(there: bool, most: u16, value: u16) -> bool
    ensures { result ≡ at_most there most value }
{
    if there { value <= most } else { value == 0 }
}

// A side that is there is in S2's range, and one that is not is 0.
fn is_side_well(there: bool, side: i16) -> bool
    ensures { result ≡ one_side_well there side }
{
    let wide = side as i32;
    if there {
        is_above(SIDE_MOST, wide)
    } else {
        is_zero(wide)
    }
}

fn are_sides_well(there: bool, sides: Sides) -> bool
    ensures { result ≡ sides_well there sides }
{
    let left = is_side_well(there, sides.left);
    let top = is_side_well(there, sides.top);
    let right = is_side_well(there, sides.right);
    let bottom = is_side_well(there, sides.bottom);
    left & top & right & bottom
}

// Both coordinates are in S4's range.
fn is_point_well(point: Point) -> bool
    ensures { result ≡ point_well point }
{
    let x = is_above(PLACE_MOST, point.x);
    let y = is_above(PLACE_MOST, point.y);
    x & y
}

pub(crate) fn is_contact_well(contact: Contact) -> bool
    ensures { result ≡ contact_well contact }
{
    let point = contact.place;
    let sides = contact.sides;
    let flags_well = states::is_listed(contact.flags as u32);
    let point_well = is_point_well(point);
    let present = contact.present as u16;
    let sides_well = are_sides_well(has_field(present, 1), sides);
    let orientation_well = is_at_most(has_field(present, 2), ORIENTATION_MOST, contact.orientation);
    let pressure_well = is_at_most(has_field(present, 4), PRESSURE_MOST, contact.pressure);
    flags_well & point_well & sides_well & orientation_well & pressure_well
}

// Whether a contact may stand in a record of this kind.
pub(crate) fn is_kind_well(kind: u8, contact: Contact) -> bool
    ensures { result ≡ kind_well kind contact }
{
    if kind == TOUCHED {
        return true;
    }
    if contact.present == 0 {
        if kind == CANCELLED {
            return (contact.flags == 0x24) | (contact.flags == 0x22);
        }
        return contact.flags == 0x02;
    }
    false
}
