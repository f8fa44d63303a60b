// The form of a session record: where its bodies stand, and the checks that reader and writer share.
#![tactic(auto)]

mod form;
mod layout;

pub use form::{Check, check_exchanges};
pub use layout::{Body, Header, Layout};
