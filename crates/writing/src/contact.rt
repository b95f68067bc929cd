// A contact, field by field.
ghost use Rattle.std.specs.Prelude.{cond, [], ◌++◌, ◌≤◌, length};
ghost use Rattle.formats.specs.Format.{byte};
ghost use Rattle.fields.specs.Integers.{taken};
ghost use Rattle.well_formed.specs.WellFormed.{has};
ghost use Rattle.message_writers.specs.Put.{Put};
ghost use Rattle.touch.specs.Touch.{point, contact, optional, optional_of};

use crate::numbers::put;
use crate::parts::{write_byte, write_number, write_point, write_sides};
use house::{Contact, Point};
use spelling::{ORIENTATION, PRESSURE, SIDES};
use well_formed::has_field;

// Orientation and pressure, each where fieldsPresent says that it is there.
fn write_numbers(out: &mut [u8], present: u8, turn: u16, press: u16) -> usize
    requires { length (cond (has 2 present) (taken.u4.write turn) [] ++ cond (has 4 present) (taken.u4.write press) []) ≤ length out.old }
    ensures { Put (cond (has 2 present) (taken.u4.write turn) [] ++ cond (has 4 present) (taken.u4.write press) []) result out.old out.new }
{
    let at_press = write_number(out, has_field(present as u16, ORIENTATION), turn as u32);
    at_press
        + write_number(
            &mut out[at_press..],
            has_field(present as u16, PRESSURE),
            press as u32,
        )
}

// The fields that fieldsPresent says are there.
fn write_optional(out: &mut [u8], touch: Contact) -> usize
    requires { ((optional taken touch.present).Holds (optional_of touch)) × (length ((optional taken touch.present).write (optional_of touch)) ≤ length out.old) }
    ensures { Put ((optional taken touch.present).write (optional_of touch)) result out.old out.new }
{
    let at_turn = write_sides(out, has_field(touch.present as u16, SIDES), touch.sides);
    at_turn
        + write_numbers(
            &mut out[at_turn..],
            touch.present,
            touch.orientation,
            touch.pressure,
        )
}

// The id and fieldsPresent.
fn write_lead(out: &mut [u8], id: u8, present: u8) -> usize
    requires { length (byte.write id ++ taken.u2.write present) ≤ length out.old }
    ensures { Put (byte.write id ++ taken.u2.write present) result out.old out.new }
{
    let at_present = write_byte(out, id);
    at_present + put(&mut out[at_present..], present as u16)
}

// The place and contactFlags.
fn write_place(out: &mut [u8], place: Point, flags: u8) -> usize
    requires { ((point taken).Holds place) × (length ((point taken).write place ++ taken.u4.write flags) ≤ length out.old) }
    ensures { Put ((point taken).write place ++ taken.u4.write flags) result out.old out.new }
{
    let at_flags = write_point(out, place);
    at_flags + put(&mut out[at_flags..], flags as u32)
}

// A contact.
pub(crate) fn write_contact(out: &mut [u8], touch: Contact) -> usize
    requires { ((contact taken).Holds touch) × (length ((contact taken).write touch) ≤ length out.old) }
    ensures { Put ((contact taken).write touch) result out.old out.new }
{
    let at_place = write_lead(out, touch.id, touch.present);
    let at_more = at_place + write_place(&mut out[at_place..], touch.place, touch.flags);
    at_more + write_optional(&mut out[at_more..], touch)
}
