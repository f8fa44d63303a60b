// The carrier's session and what it refuses. The calls themselves are those of `carrier`.
#![tactic(auto)]

mod refusals;
mod session;

pub use refusals::{
    check_alpha, check_challenge, check_commitments, check_middle, check_open, check_reply,
};
pub use session::{
    Carrier, CarrierPhase, carrier_domain, carrier_with, closed_carrier, held_commitments,
    held_turn, no_turn,
};
