// The records of frames: whether they are well formed, each head followed by its count of contacts, how many frames they are, and
// the contacts in them.
#![tactic(auto)]

mod contact;
mod judge;

pub use contact::read_contact;
pub use judge::{contacts_after, count_frames};
