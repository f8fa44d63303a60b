// The hash of one block of 64 bytes: FIPS 180-4, 6.2.2.
#![tactic(auto)]

mod block;
mod constants;
mod state;
mod word;

pub use block::hash_block;
pub use constants::initial_state;
pub use state::State;
