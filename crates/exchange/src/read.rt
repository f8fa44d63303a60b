// Messages taken apart. Each has parts of its own: one generic form would be a trait with a body for each message, no plainer.
ghost use Rattle.std.specs.Prelude.{◌≡◌};
ghost use Rattle.exchange.specs.Messages.{lent_in, middle_in, reply_three_in, reply_five_in};

use field::slot;
use round::{Middle, ReplyFive, ReplyThree, Rhos};
use slices::bytes_at;

// t1 and e1, behind α.
#[tactic(auto, unfolding(crate::specs::Messages::middle_in))]
pub fn read_middle(s: &[u8], n: u8, m: u8) -> Middle
    ensures { result ≡ middle_in n m s.now }
{
    Middle {
        t1: slot(s, 1, n),
        e1: slot(s, 1 + usize::from(n), m),
    }
}

// A reply of three passes.
#[tactic(auto, unfolding(crate::specs::Messages::reply_three_in, crate::specs::Messages::bytes_at))]
pub fn read_reply_three(s: &[u8], n: u8, m: u8) -> ReplyThree
    ensures { result ≡ reply_three_in n m s.now }
{
    let after_x = usize::from(n);
    let after_y = after_x + usize::from(n);
    let after_z = after_y + usize::from(m);
    ReplyThree {
        x: slot(s, 0, n),
        y: slot(s, after_x, n),
        z: slot(s, after_y, m),
        first: bytes_at(s, after_z),
        second: bytes_at(s, after_z + 32),
    }
}

// A reply of five passes.
#[tactic(auto, unfolding(crate::specs::Messages::reply_five_in, crate::specs::Messages::bytes_at))]
pub fn read_reply_five(s: &[u8], n: u8) -> ReplyFive
    ensures { result ≡ reply_five_in n s.now }
{
    ReplyFive {
        x: slot(s, 0, n),
        rho: bytes_at(s, usize::from(n)),
    }
}

// What is lent to the card for a round; scheme 5 has no ρ2, which then reads as zero.
#[derive(Clone, Copy)]
pub struct Lent {
    pub r0: [u8; 96],
    pub t0: [u8; 96],
    pub e0: [u8; 96],
    pub rhos: Rhos,
}

// Casts: with `usize::from` the check gets no proof of the record within the record.
#[tactic(auto, unfolding(crate::specs::Messages::lent_in, crate::specs::Messages::bytes_at))]
pub fn read_lent(s: &[u8], n: u8, m: u8) -> Lent
    ensures { result ≡ lent_in n m s.now }
{
    let after_r0 = n as usize;
    let after_t0 = after_r0 + n as usize;
    let after_e0 = after_t0 + m as usize;
    let rhos = Rhos {
        rho0: bytes_at(s, after_e0),
        rho1: bytes_at(s, after_e0 + 32),
        rho2: bytes_at(s, after_e0 + 64),
    };
    Lent {
        r0: slot(s, 0, n),
        t0: slot(s, after_r0, n),
        e0: slot(s, after_t0, m),
        rhos,
    }
}
