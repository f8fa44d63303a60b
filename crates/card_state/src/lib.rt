// The card's session and what it refuses. The calls themselves are those of `card`.
#![tactic(auto)]

mod refusals;
mod session;

pub use refusals::{check_alpha, check_commit, check_open, check_reply};
pub use session::{
    Card, CardPhase, card_domain, card_with, closed_card, held_lent, no_lent, no_rhos,
};
