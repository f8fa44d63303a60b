// What a session is about.
ghost use Rattle.std.specs.Prelude.{◌≡◌, ◌≤◌, length};

use scheme::{Scheme, of_rounds, scheme_of};
use slices::byte_at;

// What both ends are opened with, v and s aside. q, n and m are the system's.
#[derive(Clone, Copy)]
pub struct Terms<'a> {
    pub system: &'a [u8],
    pub scheme: u8,
    pub rounds: u8,
    pub q: u8,
    pub n: u8,
    pub m: u8,
    ghost room: { length system.now ≤ 65536 },
}

impl<'a> Terms<'a> {
    // The session's own first two bytes, and the system with its sizes, read before the first call checks it.
    pub fn of(system: &'a [u8], bytes: &[u8]) -> Terms<'a>
        requires { length system.now ≤ 65536 }
        ensures { result.system.now ≡ system.now }
    {
        Terms {
            system,
            scheme: byte_at(bytes, 0),
            rounds: byte_at(bytes, 1),
            q: byte_at(system, 0),
            n: byte_at(system, 1),
            m: byte_at(system, 2),
        }
    }

    // The scheme of the terms' byte; both openings refuse a byte that is none's.
    pub fn passes(self) -> Scheme {
        scheme_of(self.scheme)
    }

    // The bytes of a round in the input: what is lent, α in scheme 5, the challenge.
    pub fn round_length(self) -> usize
        ensures { result ≤ 863 }
    {
        let asked = if self.passes().has_alpha() { 2 } else { 1 };
        self.passes().lent_length(self.n, self.m) + asked
    }

    // The bytes of a session in the input.
    pub fn session_length(self) -> usize
        ensures { (2 ≤ result) × (result ≤ 1000000) }
    {
        let rounds = of_rounds(self.rounds, self.round_length());
        2 + usize::from(self.m) + usize::from(self.n) + rounds
    }
}
