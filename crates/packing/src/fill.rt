// The fields of a record, one after the other.
ghost use Rattle.std.specs.Prelude.{◌≡◌, ◌≤◌, [], ◌∷◌, length};
ghost use Rattle.slices.specs.Writing.{laid};
ghost use Rattle.house.specs.Fields.{record_bytes};
ghost use Rattle.house.specs.Layout.{signed, head_bytes, contact_bytes};
ghost use Rattle.packing.specs.Parts.{lead_fields, point_fields, sides_fields, last_fields};
ghost use Rattle.packing.specs.Filling.{Puts, Space};

use crate::bits::put;
use crate::signs::put_signed;
use house::{Contact, Head, Point, Sides};

// Lays a head over the front of an output that has room.
pub(crate) fn fill_head(out: &mut [u8], head: Head)
    requires { record_bytes ≤ length out.old }
    ensures { out.new ≡ laid out.old (head_bytes head) }
{
    put(out, 0, 2, 0);
    let count = head.count as u64;
    put(out, 2, 6, count);
    put(out, 8, 61, head.offset.0);
    put(out, 69, 3, count / 64);
    // 96 zeros are more than a word, so they go in two parts
    put(out, 72, 56, 0);
    put(out, 128, 40, 0);
}

// Kind, flags, fieldsPresent and id.
fn put_lead(out: &mut [u8], kind: u8, contact: Contact)
    requires { record_bytes ≤ length out.old }
    ensures { Puts (lead_fields kind contact) 0 out.old out.new }
{
    put(out, 0, 2, kind as u64);
    put(out, 2, 6, contact.flags as u64);
    put(out, 8, 3, contact.present as u64);
    put(out, 11, 8, contact.id as u64);
}

fn put_point(out: &mut [u8], point: Point)
    requires { record_bytes ≤ length out.old }
    ensures { Puts (point_fields point) 19 out.old out.new }
{
    put_signed(out, 19, 30, point.x);
    put_signed(out, 49, 30, point.y);
}

fn put_side(out: &mut [u8], at: usize, side: i16)
    requires { Space at 15 (length out.old) }
    ensures { Puts (signed 15 side ∷ []) at out.old out.new }
{
    put_signed(out, at, 15, side as i32);
}

fn put_sides(out: &mut [u8], sides: Sides)
    requires { record_bytes ≤ length out.old }
    ensures { Puts (sides_fields sides) 79 out.old out.new }
{
    put_side(out, 79, sides.left);
    put_side(out, 94, sides.top);
    put_side(out, 109, sides.right);
    put_side(out, 124, sides.bottom);
}

// Orientation, pressure and the unused bits.
fn put_last(out: &mut [u8], contact: Contact)
    requires { record_bytes ≤ length out.old }
    ensures { Puts (last_fields contact) 139 out.old out.new }
{
    put(out, 139, 9, contact.orientation as u64);
    put(out, 148, 16, contact.pressure as u64);
    put(out, 164, 4, 0);
}

// Lays a contact over the front of an output that has room.
pub(crate) fn fill_contact(out: &mut [u8], kind: u8, contact: Contact)
    requires { record_bytes ≤ length out.old }
    ensures { out.new ≡ laid out.old (contact_bytes kind contact) }
{
    put_lead(out, kind, contact);
    put_point(out, contact.place);
    put_sides(out, contact.sides);
    put_last(out, contact);
}
