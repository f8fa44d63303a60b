// Outputs held against the pieces expected. What is beyond the end of a piece is zero, as in the engine's vectors.
use cases::Small;
use exchange::{read_reply_five, read_reply_three};
use field::slot;
use round::{CommitmentsFive, CommitmentsThree, Middle, ReplyFive, ReplyThree};
use scheme::Scheme;
use slices::bytes_at;

// c0, c1 and c2 of three passes.
pub fn same_three_commitments(made: CommitmentsThree, expected: &Small) -> bool {
    let wanted = CommitmentsThree {
        c0: bytes_at(&expected.bytes, 0),
        c1: bytes_at(&expected.bytes, 32),
        c2: bytes_at(&expected.bytes, 64),
    };
    expected.length == Scheme::ThreePass.commitments_length() && made == wanted
}

// c0 and c1 of five passes.
pub fn same_five_commitments(made: CommitmentsFive, expected: &Small) -> bool {
    let wanted = CommitmentsFive {
        c0: bytes_at(&expected.bytes, 0),
        c1: bytes_at(&expected.bytes, 32),
    };
    expected.length == Scheme::FivePass.commitments_length() && made == wanted
}

// t1 and e1, without α before them.
pub fn same_middle(made: Middle, expected: &Small, n: u8, m: u8) -> bool {
    let after_t1 = usize::from(n);
    let wanted = Middle {
        t1: slot(&expected.bytes, 0, n),
        e1: slot(&expected.bytes, after_t1, m),
    };
    expected.length == after_t1 + usize::from(m) && made == wanted
}

pub fn same_reply_three(made: ReplyThree, expected: &Small, n: u8, m: u8) -> bool {
    expected.length == Scheme::ThreePass.reply_length(n, m)
        && made == read_reply_three(&expected.bytes, n, m)
}

pub fn same_reply_five(made: ReplyFive, expected: &Small, n: u8, m: u8) -> bool {
    expected.length == Scheme::FivePass.reply_length(n, m)
        && made == read_reply_five(&expected.bytes, n)
}
