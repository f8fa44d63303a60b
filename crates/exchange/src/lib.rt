// The messages of a round as bytes, and the one judgement of a round of either scheme, for the carrier, the report and the
// audit.
//
// Nothing here refuses: what is beyond the end of a message reads as zero. Whoever takes a message from outside refuses one
// of another length first.
#![tactic(auto)]

mod judging;
mod read;
mod write;

pub use judging::judge;
pub use read::{Lent, read_lent, read_middle, read_reply_five, read_reply_three};
pub use write::{
    write_five_commitments, write_middle, write_reply_five, write_reply_three,
    write_three_commitments,
};
