// The touch message (000, 2.2.3.3): its contacts, read field by field.
#![tactic(auto)]

mod contact;
mod parts;

pub use contact::read_contact;
use house::Sides;

// The optional fields of a contact; those that are absent are 0.
#[derive(Clone, Copy)]
pub(crate) struct Optional {
    pub sides: Sides,
    pub orientation: u16,
    pub pressure: u16,
}
