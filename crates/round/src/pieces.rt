// What is sent and lent, by value.

// The vectors of a round as the card or the simulator holds them; `mask` stands beside r1 in its commitment.
#[derive(Clone, Copy)]
pub struct Vectors {
    pub r0: [u8; 96],
    pub r1: [u8; 96],
    pub t0: [u8; 96],
    pub t1: [u8; 96],
    pub e0: [u8; 96],
    pub e1: [u8; 96],
    pub mask: [u8; 96],
}

// ρ0, ρ1, ρ2; scheme 5 has no ρ2.
#[derive(Clone, Copy)]
pub struct Rhos {
    pub rho0: [u8; 32],
    pub rho1: [u8; 32],
    pub rho2: [u8; 32],
}

// The commitments of three passes, as the card forms them. Whoever takes commitments holds their bytes.
#[derive(Clone, Copy, PartialEq, Eq)]
pub struct CommitmentsThree {
    pub c0: [u8; 32],
    pub c1: [u8; 32],
    pub c2: [u8; 32],
}

// And of five.
#[derive(Clone, Copy, PartialEq, Eq)]
pub struct CommitmentsFive {
    pub c0: [u8; 32],
    pub c1: [u8; 32],
}

// A reply of three passes: two vectors of n elements and one of m, and the ρ of the two commitments that it opens.
#[derive(Clone, Copy, PartialEq, Eq)]
pub struct ReplyThree {
    pub x: [u8; 96],
    pub y: [u8; 96],
    pub z: [u8; 96],
    pub first: [u8; 32],
    pub second: [u8; 32],
}

// The card's answer to α.
#[derive(Clone, Copy, PartialEq, Eq)]
pub struct Middle {
    pub t1: [u8; 96],
    pub e1: [u8; 96],
}

// A reply of five passes: a vector and the ρ of the commitment that it opens.
#[derive(Clone, Copy, PartialEq, Eq)]
pub struct ReplyFive {
    pub x: [u8; 96],
    pub rho: [u8; 32],
}
