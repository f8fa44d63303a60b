// The card's calls: open, then in each round commit, in scheme 5 the reply to α, and the reply.
//
// Each call takes the session by value and hands it back beside its answer; where that is a refusal, the session and the outputs
// are what they were. The session and what is refused are those of `card_state`.
//
// A session is a value, and a copy of it is a session too. Replying twice from copies of one session, to different challenges,
// gives the secret away, and no call zeroes the copy that the caller kept: keep one session, the one handed back last, and
// overwrite every other.
#![tactic(auto)]

mod alpha;
mod commitments;
mod opening;
mod replies;

pub use alpha::answer_alpha;
pub use commitments::commit;
pub use opening::open;
pub use replies::reply;
