// A house record as numbers alone, for callers that have no enums.
#![tactic(auto)]

ghost use Rattle.std.specs.Prelude.{◌≡◌};
ghost use Rattle.flat_records.specs.Flat.{flat, flattened, bare, flat_head, flat_contact, refused as refused_record};

use house::{Contact, Head, Record};
use paper::{Microseconds, Refusal};

// A record as numbers alone, since an enum does not cross to C. What its kind does not have is 0.
#[repr(C)]
#[derive(Clone, Copy)]
pub struct FlatRecord {
    pub refusal: u8,
    pub kind: u8,
    pub count: u16,
    pub flags: u8,
    pub present: u8,
    pub id: u8,
    pub orientation: u16,
    pub pressure: u16,
    pub left: i16,
    pub top: i16,
    pub right: i16,
    pub bottom: i16,
    pub x: i32,
    pub y: i32,
    pub offset: Microseconds,
}

// A record with no contact in it: a refusal's or a head's.
fn bare_record(refusal: u8, count: u16, offset: Microseconds) -> FlatRecord
    ensures { result ≡ bare refusal count offset }
{
    FlatRecord {
        refusal,
        kind: house::HEAD,
        count,
        flags: 0,
        present: 0,
        id: 0,
        orientation: 0,
        pressure: 0,
        left: 0,
        top: 0,
        right: 0,
        bottom: 0,
        x: 0,
        y: 0,
        offset,
    }
}

fn refused(refusal: u8) -> FlatRecord
    ensures { result ≡ refused_record refusal }
{
    bare_record(refusal, 0, Microseconds(0))
}

fn flatten_head(head: Head) -> FlatRecord
    ensures { result ≡ flat_head head }
{
    bare_record(0, head.count, head.offset)
}

fn flatten_contact(kind: u8, contact: Contact) -> FlatRecord
    ensures { result ≡ flat_contact kind contact }
{
    let place = contact.place;
    let sides = contact.sides;
    FlatRecord {
        refusal: 0,
        kind,
        count: 0,
        flags: contact.flags,
        present: contact.present,
        id: contact.id,
        orientation: contact.orientation,
        pressure: contact.pressure,
        left: sides.left,
        top: sides.top,
        right: sides.right,
        bottom: sides.bottom,
        x: place.x,
        y: place.y,
        offset: Microseconds(0),
    }
}

fn flatten(read: Record) -> FlatRecord
    ensures { result ≡ flattened read }
{
    match read {
        Record::Head(head) => flatten_head(head),
        Record::Contact(kind, contact) => flatten_contact(kind, contact),
        Record::Refused(refusal) => refused(refusal),
    }
}

// The record at the front of a slice of records, where it is whole and well formed.
pub fn read_flat(records: &[u8]) -> FlatRecord
    ensures { result ≡ flat records.now }
{
    let read = unpacking::read_record(records);
    if well_formed::is_well_formed(records, read) {
        return flatten(read);
    }
    refused(Refusal::BadRecord.number())
}
