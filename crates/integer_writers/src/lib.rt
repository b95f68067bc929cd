// The five integers of 000, 2.2.2, written in their only form, and how long that is.
#![tactic(auto)]

mod lengths;
mod writer;

pub use lengths::bytes;
pub use writer::write;
