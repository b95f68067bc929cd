// Whether all the records are well formed, each head followed by its count of contacts, and how many frames they are.
ghost use Rattle.std.specs.Prelude.{◌≡◌};
ghost use Rattle.formats.specs.Format.{times};
ghost use Rattle.formats.specs.Answer.{left_of, whole_of, skip};
ghost use Rattle.recordings.specs.Records.{stands, contact_record, frame_records, frames_in};
ghost use Rattle.recordings.specs.Answer.{kind_in, contacts_after, stands_as, counted};

use house::{RECORD_BYTES, Record};
use paper::Refusal;

// No kind: what stands where there is no whole record.
const NO_KIND: u8 = 255;

// The kind of a record.
fn kind_of(found: Record) -> u8
    ensures { result ≡ kind_in found }
{
    match found {
        Record::Head(_) => house::HEAD,
        Record::Contact(kind, _) => kind,
        Record::Refused(_) => NO_KIND,
    }
}

// How many contacts follow a record.
pub fn contacts_after(found: Record) -> u16
    ensures { result ≡ contacts_after found }
{
    match found {
        Record::Head(head) => head.count,
        Record::Contact(_, _) => 0,
        Record::Refused(_) => 0,
    }
}

// Whether the record that was read at the front is well formed and of a kind.
pub(crate) fn is_of_kind(records: &[u8], found: Record, kind: u8) -> bool
    ensures { result ≡ stands_as kind records.now found }
{
    if well_formed::is_well_formed(records, found) {
        return kind_of(found) == kind;
    }
    false
}

// Whether a well-formed record of a kind stands at the front.
fn is_standing(records: &[u8], kind: u8) -> bool
    ensures { result ≡ stands kind records.now }
{
    is_of_kind(records, unpacking::read_record(records), kind)
}

// What is behind n contacts.
fn skip_contacts(records: &[u8], n: usize) -> Result<&[u8], Refusal>
    ensures { left_of result ≡ (skip (times n contact_record)).read records.now }
{
    let mut left = records;
    for _ in 0..n {
        if !is_standing(left, house::TOUCHED) {
            return Err(Refusal::BadRecord);
        }
        left = &left[RECORD_BYTES..];
    }
    Ok(left)
}

// What is behind a frame.
fn skip_frame(records: &[u8]) -> Result<&[u8], Refusal>
    ensures { left_of result ≡ (skip frame_records).read records.now }
{
    let found = unpacking::read_record(records);
    if !is_of_kind(records, found, house::HEAD) {
        return Err(Refusal::BadRecord);
    }
    let count = contacts_after(found);
    skip_contacts(&records[RECORD_BYTES..], count as usize)
}

// How many frames there are.
pub fn count_frames(records: &[u8]) -> Result<usize, Refusal>
    ensures { whole_of result ≡ counted (frames_in records.now) }
{
    let mut left = records;
    let mut frames: usize = 0;
    while !left.is_empty() {
        left = skip_frame(left)?;
        frames += 1;
    }
    Ok(frames)
}
