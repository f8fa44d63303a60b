// The form of a key book: where its parts stand, and the checks of its numbers and labels, which reader and writer share.
#![tactic(auto)]

mod labels;
mod layout;
mod values;

pub use labels::Labels;
pub use layout::{Front, of_cards, table_length};
