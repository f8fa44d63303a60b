// The schemes: which there are, their bytes, the counts of what a round has, and the lengths of its messages.
//
// A scheme is decoded from its byte here and nowhere else, and matched by its cases everywhere: a third one is an error
// wherever it has no case. Every function is total; a byte that is no scheme's is refused by every entry first.
#![tactic(auto)]

ghost use Rattle.std.specs.Prelude.{◌≡◌, ◌*◌, ◌≤◌};
ghost use Rattle.scheme.specs.Scheme.{Decodes};
ghost use Rattle.scheme.specs.Scheme.{byte_of, scheme_of, is_scheme, is_rounds, challenges, commitment_count, opened_count, has_alpha};
ghost use Rattle.scheme.specs.Scheme.{drawn_length, commitments_length, lent_length, turn_length, vectors_length, rhos_length, reply_length, exchange_length};

use refusal::Refusal;

#[derive(Clone, Copy, Debug, PartialEq, Eq)]
pub enum Scheme {
    ThreePass,
    FivePass,
}

// The byte of a scheme.
impl From<Scheme> for u8 {
    ghost from_gives = { λ scheme byte. byte ≡ byte_of scheme };

    #[tactic(auto, unfolding(crate::specs::Scheme::byte_of))]
    fn from(scheme: Scheme) -> u8 {
        match scheme {
            Scheme::ThreePass => 3,
            Scheme::FivePass => 5,
        }
    }
}

// The scheme of a byte, or that it is none's.
impl TryFrom<u8> for Scheme {
    type Error = Refusal;

    ghost try_from_gives = { Decodes };

    fn try_from(byte: u8) -> Result<Scheme, Refusal> {
        match byte {
            3 => Ok(Scheme::ThreePass),
            5 => Ok(Scheme::FivePass),
            _ => Err(Refusal::Value),
        }
    }
}

// The scheme of a byte; of a byte that is no scheme's, five passes: a header of any bytes is read before it is refused.
#[tactic(auto, unfolding(crate::specs::Scheme::scheme_of))]
pub fn scheme_of(byte: u8) -> Scheme
    ensures { result ≡ scheme_of byte }
{
    match byte {
        3 => Scheme::ThreePass,
        _ => Scheme::FivePass,
    }
}

// Whether a session has so many rounds: a byte is at most 255.
#[tactic(auto, unfolding(crate::specs::Scheme::is_rounds))]
pub fn is_rounds(rounds: u8) -> bool
    ensures { result ≡ is_rounds rounds }
{
    1 <= rounds
}

impl Scheme {
    // How many challenges there are; they are counted from 0.
    #[tactic(auto, unfolding(crate::specs::Scheme::challenges))]
    pub fn challenges(self) -> u8
        ensures { result ≡ challenges self }
    {
        match self {
            Scheme::ThreePass => 3,
            Scheme::FivePass => 2,
        }
    }

    // How many commitments a round has, and ρ are lent for it.
    #[tactic(auto, unfolding(crate::specs::Scheme::commitment_count))]
    pub fn commitment_count(self) -> u8
        ensures { (result ≡ commitment_count self) × (result ≤ 3) }
    {
        match self {
            Scheme::ThreePass => 3,
            Scheme::FivePass => 2,
        }
    }

    // How many of them a reply opens.
    #[tactic(auto, unfolding(crate::specs::Scheme::opened_count))]
    pub fn opened_count(self) -> u8
        ensures { (result ≡ opened_count self) × (result ≤ 2) }
    {
        match self {
            Scheme::ThreePass => 2,
            Scheme::FivePass => 1,
        }
    }

    // Whether α, t1 and e1 come between commitments and challenge.
    #[tactic(auto, unfolding(crate::specs::Scheme::has_alpha))]
    pub fn has_alpha(self) -> bool
        ensures { result ≡ has_alpha self }
    {
        match self {
            Scheme::ThreePass => false,
            Scheme::FivePass => true,
        }
    }

    // The elements that are lent for a round.
    #[tactic(auto, unfolding(crate::specs::Scheme::drawn_length))]
    pub fn drawn_length(self, n: u8, m: u8) -> usize
        ensures { (result ≡ drawn_length self n m) × (result ≤ 765) }
    {
        match self {
            Scheme::ThreePass => usize::from(n) + usize::from(n) + usize::from(m),
            Scheme::FivePass => usize::from(n) + usize::from(n) + usize::from(m),
        }
    }

    // The bytes of a round's commitments.
    #[tactic(auto, unfolding(crate::specs::Scheme::commitments_length))]
    pub fn commitments_length(self) -> usize
        ensures { (result ≡ commitments_length self) × (result ≤ 96) }
    {
        32 * usize::from(self.commitment_count())
    }

    // The bytes that are lent for a round: elements, then ρ.
    #[tactic(auto, unfolding(crate::specs::Scheme::lent_length))]
    pub fn lent_length(self, n: u8, m: u8) -> usize
        ensures { (result ≡ lent_length self n m) × (result ≤ 861) }
    {
        self.drawn_length(n, m) + self.commitments_length()
    }

    // The bytes of α, t1 and e1, where there are any.
    #[tactic(auto, unfolding(crate::specs::Scheme::turn_length))]
    pub fn turn_length(self, n: u8, m: u8) -> usize
        ensures { (result ≡ turn_length self n m) × (result ≤ 511) }
    {
        match self {
            Scheme::ThreePass => 0,
            Scheme::FivePass => 1 + usize::from(n) + usize::from(m),
        }
    }

    // The elements of a reply.
    #[tactic(auto, unfolding(crate::specs::Scheme::vectors_length))]
    pub fn vectors_length(self, n: u8, m: u8) -> usize
        ensures { (result ≡ vectors_length self n m) × (result ≤ 765) }
    {
        match self {
            Scheme::ThreePass => usize::from(n) + usize::from(n) + usize::from(m),
            Scheme::FivePass => usize::from(n),
        }
    }

    // The bytes of ρ in a reply.
    #[tactic(auto, unfolding(crate::specs::Scheme::rhos_length))]
    pub fn rhos_length(self) -> usize
        ensures { (result ≡ rhos_length self) × (result ≤ 64) }
    {
        32 * usize::from(self.opened_count())
    }

    // The bytes of a reply.
    #[tactic(auto, unfolding(crate::specs::Scheme::reply_length))]
    pub fn reply_length(self, n: u8, m: u8) -> usize
        ensures { (result ≡ reply_length self n m) × (result ≤ 829) }
    {
        self.vectors_length(n, m) + self.rhos_length()
    }

    // The bytes of an exchange: α, t1 and e1 in scheme 5; the challenge; the reply.
    #[tactic(auto, unfolding(crate::specs::Scheme::exchange_length))]
    pub fn exchange_length(self, n: u8, m: u8) -> usize
        ensures { (result ≡ exchange_length self n m) × (result ≤ 1341) }
    {
        self.turn_length(n, m) + (1 + self.reply_length(n, m))
    }
}

// The bytes of so many rounds: also where, among the bytes of all rounds, the next one starts.
pub fn of_rounds(rounds: u8, each: usize) -> usize
    requires { each ≤ 1341 }
    ensures { (result ≡ rounds * each) × (result ≤ 341955) }
{
    usize::from(rounds) * each
}
