// Unpacking: house records, read.
#![tactic(auto)]

ghost use Rattle.std.specs.Prelude.{◌≡◌};
ghost use Rattle.house.specs.Layout.{record_of, spare_zero};

use house::{HEAD, RECORD_BYTES, Record};
use paper::Refusal;

mod bits;
mod read;
mod signs;

// The record at the front of a slice of records, well formed or not.
pub fn read_record(records: &[u8]) -> Record
    ensures { result ≡ record_of records.now }
{
    let Some(whole) = records.first_chunk::<RECORD_BYTES>() else {
        return Record::Refused(Refusal::BadRecord.number());
    };
    let kind = read::read_kind(whole);
    if kind == HEAD {
        return Record::Head(read::read_head(whole));
    }
    Record::Contact(kind, read::read_contact(whole))
}

// Whether the unused bits of the record at the front of a slice of records are 0; false where it is not whole.
pub fn is_spare_zero(records: &[u8]) -> bool
    ensures { result ≡ spare_zero records.now }
{
    let Some(whole) = records.first_chunk::<RECORD_BYTES>() else {
        return false;
    };
    let kind = read::read_kind(whole);
    if kind == HEAD {
        return read::is_head_spare_zero(whole);
    }
    read::is_contact_spare_zero(whole)
}
