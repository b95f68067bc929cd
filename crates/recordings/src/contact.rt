// A frame's contact, read from its record.
ghost use Rattle.std.specs.Prelude.{◌≡◌};
ghost use Rattle.formats.specs.Answer.{read_of, tail_end, end_of};
ghost use Rattle.recordings.specs.Records.{contact_record};

use crate::judge::is_of_kind;
use house::{Contact, RECORD_BYTES, Record};
use paper::Refusal;

// The contact of the record at the front, and what is behind it.
pub fn read_contact(records: &[u8]) -> Result<(Contact, &[u8]), Refusal>
    ensures value { read_of result ≡ contact_record.read records.now }
    ensures tail { tail_end records.entry result ≡ end_of records.entry }
{
    let found = unpacking::read_record(records);
    if !is_of_kind(records, found, house::TOUCHED) {
        return Err(Refusal::BadRecord);
    }
    match found {
        Record::Contact(_, contact) => Ok((contact, &records[RECORD_BYTES..])),
        _ => Err(Refusal::BadRecord),
    }
}
