// Records as the fields of a message, one record after the other.
ghost use Rattle.std.specs.Prelude.{false, ◌≤◌, length};
ghost use Rattle.fields.specs.Integers.{taken};
ghost use Rattle.house.specs.Layout.{record_of};
ghost use Rattle.message_writers.specs.Put.{Put};
ghost use Rattle.touch.specs.Touch.{frame_head};
ghost use Rattle.spelling.specs.Spelling.{spelling};
ghost use Rattle.writing.specs.Spelling.{Spells, spelt, Spelt};

use crate::contact::write_contact;
use crate::numbers::put;
use house::{Head, Record};

// What stands before a frame's contacts: their count and the frame's offset.
fn write_frame_head(out: &mut [u8], head: Head) -> usize
    requires { ((frame_head taken false).Holds head) × (length ((frame_head taken false).write head) ≤ length out.old) }
    ensures { Put ((frame_head taken false).write head) result out.old out.new }
{
    let at_offset = put(out, head.count);
    at_offset + put(&mut out[at_offset..], head.offset.0)
}

// The record at the front of what is lent. A refused one, which no caller lends, has no fields.
fn write_record(out: &mut [u8], records: &[u8]) -> usize
    requires { Spells (record_of records.now) × (length (spelling (record_of records.now)) ≤ length out.old) }
    ensures { Put (spelling (record_of records.now)) result out.old out.new }
{
    match unpacking::read_record(records) {
        Record::Head(head) => write_frame_head(out, head),
        Record::Contact(_, contact) => write_contact(out, contact),
        Record::Refused(_) => 0,
    }
}

// So many records.
pub(crate) fn write_records(out: &mut [u8], records: &[u8], count: usize) -> usize
    requires { Spelt count records.now × (length (spelt count records.now) ≤ length out.old) }
    ensures { Put (spelt count records.now) result out.old out.new }
{
    let mut at: usize = 0;
    let mut left = records;
    for _ in 0..count {
        at += write_record(&mut out[at..], left);
        left = &left[house::RECORD_BYTES..];
    }
    at
}
