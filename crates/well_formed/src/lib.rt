// Which house records are well formed.
#![tactic(auto)]

ghost use Rattle.std.specs.Prelude.{◌≡◌};
ghost use Rattle.well_formed.specs.WellFormed.{well_as};

use house::Record;

mod signs;
mod well;

pub use well::has_field;

// The limits of a message: of a frame's contacts, of a coordinate's and a side's magnitude, of an orientation and of a pressure.
pub const CONTACTS_MOST: u16 = 256;

pub const PLACE_MOST: u32 = 0x1FFFFFFF;

pub const SIDE_MOST: u32 = 0x3FFF;

pub const ORIENTATION_MOST: u16 = 359;

pub const PRESSURE_MOST: u16 = 65000;

// Whether a record that was read at the front of a slice of records is whole and well formed: whoever asks has read it, and need not again.
pub fn is_well_formed(records: &[u8], read: Record) -> bool
    ensures { result ≡ well_as records.now read }
{
    let spare_zero = unpacking::is_spare_zero(records);
    match read {
        Record::Head(head) => spare_zero & well::is_head_well(head),
        Record::Contact(kind, contact) => {
            let contact_well = well::is_contact_well(contact);
            let kind_well = well::is_kind_well(kind, contact);
            spare_zero & contact_well & kind_well
        }
        Record::Refused(_) => false,
    }
}
