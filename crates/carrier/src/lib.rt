// The carrier's calls: open, then in each round take commitments, in scheme 5 set α and take t1 and e1, set the challenge, and
// take the reply, which is judged.
//
// Each call takes the session by value and hands it back beside its answer; where that is a refusal, the session is what it
// was. The session and what is refused are those of `carrier_state`.
#![tactic(auto)]

mod calls;
mod opening;

pub use calls::{set_alpha, set_challenge, take_commitments, take_middle, take_reply};
pub use opening::open;
