// A record as the fields of a message: how many bytes they take, before any is written.
#![tactic(auto)]

ghost use Rattle.std.specs.Prelude.{◌≡◌, cond, false, [], ◌+◌, length};
ghost use Rattle.fields.specs.Integers.{taken};
ghost use Rattle.house.specs.Layout.{record_of};
ghost use Rattle.touch.specs.Touch.{point, sides, optional, optional_of, contact, frame_head, touch_head};
ghost use Rattle.spelling.specs.Spelling.{spelling};

use house::{Contact, Head, Point, Record, Sides};
use paper::Milliseconds;
use well_formed::has_field;

// What fieldsPresent says is there.
pub const SIDES: u16 = 1;

pub const ORIENTATION: u16 = 2;

pub const PRESSURE: u16 = 4;

// x and y.
fn point_bytes(place: Point) -> usize
    ensures { result ≡ length ((point taken).write place) }
{
    integer_writers::bytes(place.x) + integer_writers::bytes(place.y)
}

// The sides, where they are there.
fn sides_bytes(there: bool, four: Sides) -> usize
    ensures { result ≡ length (cond there ((sides taken).write four) []) }
{
    if there {
        let high = integer_writers::bytes(four.left) + integer_writers::bytes(four.top);
        return high + integer_writers::bytes(four.right) + integer_writers::bytes(four.bottom);
    }
    0
}

// A U4 that may be absent: orientation or pressure.
fn number_bytes(there: bool, value: u32) -> usize
    ensures { result ≡ length (cond there (taken.u4.write value) []) }
{
    if there {
        return integer_writers::bytes(value);
    }
    0
}

// The fields that fieldsPresent says are there.
fn optional_bytes(touch: Contact) -> usize
    ensures { result ≡ length ((optional taken touch.present).write (optional_of touch)) }
{
    let present = touch.present as u16;
    let four = sides_bytes(has_field(present, SIDES), touch.sides);
    let turn = number_bytes(has_field(present, ORIENTATION), touch.orientation as u32);
    let press = number_bytes(has_field(present, PRESSURE), touch.pressure as u32);
    four + turn + press
}

// A contact. Its id takes one byte.
fn contact_bytes(touch: Contact) -> usize
    ensures { result ≡ length ((contact taken).write touch) }
{
    let lead = 1 + integer_writers::bytes(touch.present as u16);
    let place = point_bytes(touch.place) + integer_writers::bytes(touch.flags as u32);
    lead + place + optional_bytes(touch)
}

// What stands before a frame's contacts: their count and the frame's offset.
fn frame_head_bytes(head: Head) -> usize
    ensures { result ≡ length ((frame_head taken false).write head) }
{
    integer_writers::bytes(head.count) + integer_writers::bytes(head.offset.0)
}

// The record at the front of what is lent.
pub fn record_bytes(records: &[u8]) -> usize
    ensures { result ≡ length (spelling (record_of records.now)) }
{
    match unpacking::read_record(records) {
        Record::Head(head) => frame_head_bytes(head),
        Record::Contact(_, touch) => contact_bytes(touch),
        Record::Refused(_) => 0,
    }
}

// What stands before a message's frames: encodeTime and their count.
pub fn touch_head_bytes(time: Milliseconds, frames: u8) -> usize
    ensures { result ≡ length ((touch_head taken).write (record { time = time; frames = frames })) }
{
    integer_writers::bytes(time.0) + integer_writers::bytes(frames as u16)
}
