// The touch writer.
#![tactic(auto)]

mod contact;
mod lengths;
mod message;
mod numbers;
mod parts;
mod spell;

pub use message::{check_records, write_touch};
