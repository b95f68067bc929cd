// Packing: house records, written.
#![tactic(auto)]

ghost use Rattle.slices.specs.Writing.{bytes, Writes};
ghost use Rattle.house.specs.Layout.{head_bytes, contact_bytes};

use house::{Contact, Head, RECORD_BYTES};
use paper::Refusal;
use slices::Written;

mod bits;
mod fill;
mod signs;

// Writes a head at the front of what is lent, where there is room.
pub fn write_head(out: &mut [u8], head: Head) -> Written
    ensures { Writes (bytes (head_bytes head)) result out.old out.new }
{
    if out.len() < RECORD_BYTES {
        return Written::refused(Refusal::NoRoom);
    }
    fill::fill_head(out, head);
    Written::done(RECORD_BYTES)
}

// Writes a contact at the front of what is lent, where there is room.
pub fn write_contact(out: &mut [u8], kind: u8, contact: Contact) -> Written
    ensures { Writes (bytes (contact_bytes kind contact)) result out.old out.new }
{
    if out.len() < RECORD_BYTES {
        return Written::refused(Refusal::NoRoom);
    }
    fill::fill_contact(out, kind, contact);
    Written::done(RECORD_BYTES)
}
