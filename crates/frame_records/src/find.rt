// The frame at the front of what is lent.
ghost use Rattle.std.specs.Prelude.{◌≡◌};
ghost use Rattle.formats.specs.Answer.{end_of};
ghost use Rattle.frame_records.specs.Frames.{head_in, contacts_in, FindsFrame, FrameEnds};

use house::Head;
use paper::Microseconds;

// A frame of no contacts.
const EMPTY: Head = Head {
    count: 0,
    offset: Microseconds(0),
};

// The frame at the front of what is lent, whose offset is not judged, where one can be read: its head, its contacts, and what is behind it.
pub fn find_frame(rest: &[u8]) -> Option<(Head, &[u8], &[u8])>
    ensures value { FindsFrame rest.now result }
    ensures tail { FrameEnds rest.entry result }
{
    let (head, contacts) = touch_frames::read_frame_head(rest, false, false).ok()?;
    let behind = touch_frames::skip_contacts(contacts, head.count as usize, false).ok()?;
    Some((head, contacts, behind))
}

// The head of the frame at the front of what is lent, whose offset is not judged, and what is behind it; where none can be read the head of an
// empty frame, and all that is lent.
pub fn find_head(rest: &[u8]) -> (Head, &[u8])
    ensures value { (result.0 ≡ head_in rest.now) × (result.1.now ≡ contacts_in rest.now) }
    ensures tail { end_of result.1 ≡ end_of rest.entry }
{
    match touch_frames::read_frame_head(rest, false, false) {
        Ok(found) => found,
        Err(_) => (EMPTY, rest),
    }
}
