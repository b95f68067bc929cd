// The records of a frame, from the frame's bytes in a message.
#![tactic(auto)]

mod find;
mod write;

pub use find::{find_frame, find_head};
pub use write::write_frame;
