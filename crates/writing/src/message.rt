// The whole message.
ghost use Rattle.std.specs.Prelude.{◌≡◌, ◌++◌, ◌+◌, ◌<◌, ◌≤◌, length};
ghost use Rattle.integers.specs.Integer.{limit};
ghost use Rattle.fields.specs.Integers.{taken};
ghost use Rattle.message_writers.specs.Put.{Put};
ghost use Rattle.messages.specs.Header.{header, header_bytes};
ghost use Rattle.touch.specs.Touch.{touch_head};
ghost use Rattle.slices.specs.Writing.{Writes};
ghost use Rattle.writing.specs.Spelling.{Spelt, body_of};
ghost use Rattle.formats.specs.Answer.{whole_of};
ghost use Rattle.recordings.specs.Answer.{counted};
ghost use Rattle.writing.specs.Judging.{Judges};
ghost use Rattle.writing.specs.TouchDraft.{checked_frames, touch_draft};

use crate::lengths::message_bytes;
use crate::numbers::put;
use crate::spell::write_records;
use paper::{Milliseconds, Refusal};
use slices::Written;

// The greatest encodeTime of a message.
const TIME_MOST: u32 = 0x3FFF_FFFF;

const FRAMES_MOST: usize = touch_frames::FRAMES_MOST as usize;

// What stands before a message's frames: encodeTime and their count.
fn write_touch_head(out: &mut [u8], time: Milliseconds, frames: u8) -> usize
    requires { (time.0 < limit 2 0) × (length ((touch_head taken).write (record { time = time; frames = frames })) ≤ length out.old) }
    ensures { Put ((touch_head taken).write (record { time = time; frames = frames })) result out.old out.new }
{
    let at_count = put(out, time.0);
    at_count + put(&mut out[at_count..], frames as u16)
}

// The body: its head, and then its records.
fn write_body(out: &mut [u8], time: Milliseconds, frames: u8, records: &[u8], count: usize) -> usize
    requires { (time.0 < limit 2 0) × Spelt count records.now × (length (body_of time frames count records.now) ≤ length out.old) }
    ensures { Put (body_of time frames count records.now) result out.old out.new }
{
    let at_frames = write_touch_head(out, time, frames);
    at_frames + write_records(&mut out[at_frames..], records, count)
}

// The message, of so many bytes in all: the header, and the body behind it.
fn write_message(
    out: &mut [u8],
    total: u32,
    time: Milliseconds,
    frames: u8,
    records: &[u8],
    count: usize,
) -> usize
    requires { (time.0 < limit 2 0) × Spelt count records.now × (total ≡ header_bytes + length (body_of time frames count records.now)) × (total ≤ length out.old) }
    ensures { Put (header 3 total ++ body_of time frames count records.now) result out.old out.new }
{
    message_writers::write_header(out, messages::TOUCH, total);
    let body = &mut out[messages::HEADER_BYTES..];
    messages::HEADER_BYTES + write_body(body, time, frames, records, count)
}

// Whether a message holds an encodeTime, and how many frames records are: 10, then 14.
pub fn check_records(time: Milliseconds, records: &[u8]) -> Result<usize, Refusal>
    ensures { whole_of result ≡ counted (checked_frames time records.now) }
{
    if TIME_MOST < time.0 {
        return Err(Refusal::BadRange);
    }
    recordings::count_frames(records)
}

// How many frames records are, and of how many bytes their message is; or the first fault: 10, 14, 7, 2, 13.
fn judge(time: Milliseconds, records: &[u8], room: usize) -> Result<(u8, usize), Refusal>
    ensures { Judges time records.now room result }
{
    let frames = check_records(time, records)?;
    if FRAMES_MOST < frames {
        return Err(Refusal::BadCount);
    }
    let few = frames as u8;
    let total = message_bytes(time, few, records, records.len() / house::RECORD_BYTES);
    if messages::MESSAGE_MOST < total {
        return Err(Refusal::TooLong);
    }
    if room < total {
        return Err(Refusal::NoRoom);
    }
    Ok((few, total))
}

// Writes a touch message of an encodeTime and of records.
pub fn write_touch(out: &mut [u8], time: Milliseconds, records: &[u8]) -> Written
    ensures { Writes (touch_draft time records.now) result out.old out.new }
{
    let (frames, total) = match judge(time, records, out.len()) {
        Ok(judged) => judged,
        Err(e) => return Written::refused(e),
    };
    let count = records.len() / house::RECORD_BYTES;
    Written::done(write_message(out, total as u32, time, frames, records, count))
}
