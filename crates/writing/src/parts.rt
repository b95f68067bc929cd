// The parts of a contact, each written behind the last one, through the tail that is left of an output with room for all of them.
ghost use Rattle.std.specs.Prelude.{cond, [], ◌++◌, ◌≤◌, length};
ghost use Rattle.formats.specs.Format.{byte, HoldsWhen};
ghost use Rattle.house.specs.Fits.{no_sides};
ghost use Rattle.fields.specs.Integers.{taken};
ghost use Rattle.message_writers.specs.Put.{Put};
ghost use Rattle.touch.specs.Touch.{point, sides};

use crate::numbers::put;
use house::{Point, Sides};

// One byte.
pub(crate) fn write_byte(out: &mut [u8], value: u8) -> usize
    requires { 1 ≤ length out.old }
    ensures { Put (byte.write value) result out.old out.new }
{
    out[0] = value;
    1
}

// A U4 that may be absent: orientation or pressure.
pub(crate) fn write_number(out: &mut [u8], there: bool, value: u32) -> usize
    requires { (taken.u4.Holds value) × (length (cond there (taken.u4.write value) []) ≤ length out.old) }
    ensures { Put (cond there (taken.u4.write value) []) result out.old out.new }
{
    if there {
        return put(out, value);
    }
    0
}

// x and y.
pub(crate) fn write_point(out: &mut [u8], place: Point) -> usize
    requires { ((point taken).Holds place) × (length ((point taken).write place) ≤ length out.old) }
    ensures { Put ((point taken).write place) result out.old out.new }
{
    let at_y = put(out, place.x);
    at_y + put(&mut out[at_y..], place.y)
}

// Two sides, one behind the other.
fn write_two(out: &mut [u8], first: i16, second: i16) -> usize
    requires { (taken.s2.Holds first) × (taken.s2.Holds second) × (length (taken.s2.write first ++ taken.s2.write second) ≤ length out.old) }
    ensures { Put (taken.s2.write first ++ taken.s2.write second) result out.old out.new }
{
    let at = put(out, first);
    at + put(&mut out[at..], second)
}

// left, top, right and bottom.
fn write_four(out: &mut [u8], four: Sides) -> usize
    requires { ((sides taken).Holds four) × (length ((sides taken).write four) ≤ length out.old) }
    ensures { Put ((sides taken).write four) result out.old out.new }
{
    let at_right = write_two(out, four.left, four.top);
    at_right + write_two(&mut out[at_right..], four.right, four.bottom)
}

// The sides, where they are there.
pub(crate) fn write_sides(out: &mut [u8], there: bool, four: Sides) -> usize
    requires { HoldsWhen there (sides taken).Holds no_sides four × (length (cond there ((sides taken).write four) []) ≤ length out.old) }
    ensures { Put (cond there ((sides taken).write four) []) result out.old out.new }
{
    if there {
        return write_four(out, four);
    }
    0
}
