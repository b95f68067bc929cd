// Document 02, #106: the set of ids that is kept while ignoring, and which frames open. An id is in the set where its mark is not 0.
#![tactic(auto)]

mod listing;
mod opening;

pub use listing::{list_contacts, mark_active};
pub use opening::is_judged;
