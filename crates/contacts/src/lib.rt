// Document 01, "Contact states": the table of 256 contacts, and what becomes of a frame.
#![tactic(auto)]

mod counts;
mod judging;
mod rules;
mod scan;
mod source;

pub use counts::count_active;
pub use judging::{judge, verdict_of};
pub use source::read_contact;

// How many of a frame's contacts are active after it, and how many were before.
#[derive(Clone, Copy)]
pub(crate) struct Survey {
    pub came: u16,
    pub gone: u16,
}

// What becomes of a frame; of an injected one, how many contacts are active after it.
#[derive(Clone, Copy)]
pub enum Ruling {
    Injected(u16),
    Ignored,
    Cancelled,
}
