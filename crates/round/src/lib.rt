// One round of each protocol: what the card and the simulator form, commit to and reply, and the strings with which a reply
// opens commitments.
//
// These functions refuse nothing: whoever calls them has checked the system, and takes the
// elements and challenges that document 01 allows. A challenge above its range is taken as the largest of it.
//
// Three and five passes have a file each, and commitments and replies of their own: c0, c1, c2 and the vectors have the names by
// which the definitions speak, and an array of commitments or a trait would take them away.
#![tactic(auto)]

mod card;
mod five;
mod pieces;
mod three;

pub use card::{card_three, middle, r1_of, simulated, t1_of};
pub use five::{commitments_five, opening_five, reply_five};
pub use pieces::{CommitmentsFive, CommitmentsThree, Middle, ReplyFive, ReplyThree, Rhos, Vectors};
pub use three::{commitments_three, first_number, first_opening, reply_three, second_opening};
