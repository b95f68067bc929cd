// What is judged of a touch message beside its frames' contacts: whether records may be sent now, and the first frame's offset.
#![tactic(auto)]

ghost use Rattle.std.specs.Prelude.{◌≡◌};
ghost use Rattle.house.specs.Layout.{record_of};
ghost use Rattle.formats.specs.Answer.{whole_of};
ghost use Rattle.recordings.specs.Answer.{counted};
ghost use Rattle.writing.specs.TouchDraft.{checked_frames};
ghost use Rattle.panel_checks.specs.Checks.{permitted, offset_in, first_stands};

use house::Record;
use paper::{Milliseconds, Refusal};

// How many frames records are, where a touch message of them may be written now: 10, 14, 15, 16.
pub fn check(ready: u8, suspended: u8, time: Milliseconds, records: &[u8]) -> Result<usize, Refusal>
    ensures { whole_of result ≡ counted (permitted ready suspended (checked_frames time records.now)) }
{
    let frames = writing::check_records(time, records)?;
    if ready == 0 {
        return Err(Refusal::NotReady);
    }
    if suspended != 0 {
        return Err(Refusal::Suspended);
    }
    Ok(frames)
}

// The first frame's offset, 0 where there is no frame.
fn first_offset(records: &[u8]) -> u64
    ensures { result ≡ offset_in (record_of records.now) }
{
    match unpacking::read_record(records) {
        Record::Head(head) => head.offset.0,
        _ => 0,
    }
}

// Whether the first frame's offset is 0 where it has to be.
pub fn offset_stands(records: &[u8], flags: u32, begun: u8) -> bool
    ensures { result ≡ first_stands flags begun (record_of records.now) }
{
    if channel::is_judged(flags, begun) {
        return first_offset(records) == 0;
    }
    true
}
