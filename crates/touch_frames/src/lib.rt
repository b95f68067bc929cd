// Frames and the whole body of a touch message: what is behind them, or the first fault.
#![tactic(auto)]

ghost use Rattle.std.specs.Prelude.{◌≡◌};
ghost use Rattle.formats.specs.Answer.{read_of, left_of, tail_end, left_end, end_of, skip};
ghost use Rattle.formats.specs.Format.{series, times};
ghost use Rattle.fields.specs.Integers.{taken_by};
ghost use Rattle.framing.specs.Format.{count_to, offset};
ghost use Rattle.touch.specs.Touch.{contact, frame_head, frame, touch_head};
ghost use Rattle.touch_frames.specs.Checks.{Checks};

use framing::BodyHead;
use house::Head;
use paper::{Microseconds, Milliseconds, Refusal};
use slices::Left;

// The most frames of a message.
pub const FRAMES_MOST: u16 = 64;

// contactCount and frameCount: at most so many.
fn read_count(rest: &[u8], most: u16, strictly: bool) -> Result<(u16, &[u8]), Refusal>
    ensures value { read_of result ≡ (count_to (taken_by strictly) most).read rest.now }
    ensures tail { tail_end rest.entry result ≡ end_of rest.entry }
{
    let (count, rest) = fields::read::<u16>(rest, strictly)?;
    if count <= most {
        return Ok((count, rest));
    }
    Err(Refusal::BadCount)
}

// frameOffset: 0 where 11 is judged.
fn read_offset(rest: &[u8], judged: bool, strictly: bool) -> Result<(u64, &[u8]), Refusal>
    ensures value { read_of result ≡ (offset (taken_by strictly) judged).read rest.now }
    ensures tail { tail_end rest.entry result ≡ end_of rest.entry }
{
    let (offset, rest) = fields::read::<u64>(rest, strictly)?;
    if judged & (offset != 0) {
        return Err(Refusal::BadOffset);
    }
    Ok((offset, rest))
}

// What stands before a frame's contacts.
#[tactic(auto, unfolding(framing::specs::Format::frame_head_format))]
pub fn read_frame_head(rest: &[u8], judged: bool, strictly: bool) -> Result<(Head, &[u8]), Refusal>
    ensures value { read_of result ≡ (frame_head (taken_by strictly) judged).read rest.now }
    ensures tail { tail_end rest.entry result ≡ end_of rest.entry }
{
    let (count, rest) = read_count(rest, well_formed::CONTACTS_MOST, strictly)?;
    let (offset, rest) = read_offset(rest, judged, strictly)?;
    let found = Head {
        count,
        offset: Microseconds(offset),
    };
    Ok((found, rest))
}

// What is behind n contacts, or the first fault.
pub fn skip_contacts(rest: &[u8], n: usize, strictly: bool) -> Result<&[u8], Refusal>
    ensures value { left_of result ≡ (skip (times n (contact (taken_by strictly)))).read rest.now }
    ensures tail { left_end rest.entry result ≡ end_of rest.entry }
{
    let mut left = Left { bytes: rest };
    for _ in 0..n {
        let (_, behind) = touch::read_contact(left.bytes, strictly)?;
        left = Left { bytes: behind };
    }
    Ok(left.bytes)
}

// What is behind a frame, or its first fault.
#[tactic(auto, unfolding(framing::specs::Format::frame_format))]
fn skip_frame(rest: &[u8], judged: bool, strictly: bool) -> Result<&[u8], Refusal>
    ensures value { left_of result ≡ (skip (frame (taken_by strictly) judged)).read rest.now }
    ensures tail { left_end rest.entry result ≡ end_of rest.entry }
{
    let (head, contacts) = read_frame_head(rest, judged, strictly)?;
    skip_contacts(contacts, head.count as usize, strictly)
}

// What is behind n frames, or the first fault. 11 is judged on the first frame alone.
fn skip_frames(rest: &[u8], n: usize, judged: bool, strictly: bool) -> Result<&[u8], Refusal>
    ensures value { left_of result ≡ (skip (series (frame (taken_by strictly)) judged n)).read rest.now }
    ensures tail { left_end rest.entry result ≡ end_of rest.entry }
{
    let mut left = Left { bytes: rest };
    for i in 0..n {
        let behind = skip_frame(left.bytes, (i == 0) & judged, strictly)?;
        left = Left { bytes: behind };
    }
    Ok(left.bytes)
}

// What stands before a message's frames.
#[tactic(auto, unfolding(framing::specs::Format::body_head_format))]
pub fn read_touch_head(rest: &[u8], strictly: bool) -> Result<(BodyHead, &[u8]), Refusal>
    ensures value { read_of result ≡ (touch_head (taken_by strictly)).read rest.now }
    ensures tail { tail_end rest.entry result ≡ end_of rest.entry }
{
    let (time, rest) = fields::read::<u32>(rest, strictly)?;
    let (count, rest) = read_count(rest, FRAMES_MOST, strictly)?;
    let found = BodyHead {
        time: Milliseconds(time),
        frames: count as u8,
    };
    Ok((found, rest))
}

// The whole body, judged to its last byte: what stands before its frames, and these.
pub fn check_body(body: &[u8], judged: bool, strictly: bool) -> Result<(BodyHead, &[u8]), Refusal>
    ensures value { Checks strictly judged body.now result }
    ensures tail { tail_end body.entry result ≡ end_of body.entry }
{
    let (head, frames) = read_touch_head(body, strictly)?;
    let left = skip_frames(frames, head.frames as usize, judged, strictly)?;
    if left.is_empty() {
        return Ok((head, frames));
    }
    Err(Refusal::Trailing)
}
