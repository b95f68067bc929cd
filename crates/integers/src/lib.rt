// The five integers of 000, 2.2.2, read in their only form or in any.
#![tactic(auto)]

mod common;
mod found;
mod kinds;
mod reader;

pub use common::fewest_of;
pub use kinds::Integer;
pub use reader::read;
