// Document 01, "Contact states": what frames, cancels and dismissals do to the table of contacts, and the records that no message carries.
#![tactic(auto)]

mod records;
mod table;

pub use records::{dismiss, write_cancels};
pub use table::{apply, move_contact, rest_all, store};
