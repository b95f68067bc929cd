// Frames of contacts, over any contact: what stands before a message's frames; definitions and laws.
#![tactic(auto)]

use paper::Milliseconds;

// What stands before a message's frames: encodeTime, and how many frames follow.
#[derive(Clone, Copy)]
pub struct BodyHead {
    pub time: Milliseconds,
    pub frames: u8,
}
