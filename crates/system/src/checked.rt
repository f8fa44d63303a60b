// A system whose bytes were checked.
ghost use Rattle.std.specs.Prelude.{◌≡◌, IfOk};
ghost use Rattle.refusal.specs.Refusal.{number_of};
ghost use Rattle.system.specs.System.{q_of, n_of, m_of, system_refusal, system_against};

use crate::layout::{check, check_against};
use refusal::Refusal;

// The bytes of a well-formed system.
#[derive(Clone, Copy)]
pub struct System<'a> {
    pub bytes: &'a [u8],
    ghost well_formed: { system_refusal bytes.now ≡ 0 },
}

impl<'a> System<'a> {
    // The system that the bytes are, or why they are none.
    pub fn new(bytes: &'a [u8]) -> Result<System<'a>, Refusal>
        ensures refusal { number_of result ≡ system_refusal bytes.now }
        ensures bytes { IfOk result (λ system. system.bytes.now ≡ bytes.now) }
    {
        check(bytes)?;
        Ok(System { bytes })
    }

    // The same of a system that is lent to a session of this q, n and m.
    #[tactic(auto, using(crate::proofs::SystemLayout::well_formed_against))]
    pub fn of_sizes(bytes: &'a [u8], q: u8, n: u8, m: u8) -> Result<System<'a>, Refusal>
        ensures refusal { number_of result ≡ system_against bytes.now q n m }
        ensures bytes { IfOk result (λ system. system.bytes.now ≡ bytes.now) }
    {
        check_against(bytes, q, n, m)?;
        Ok(System { bytes })
    }

    #[tactic(auto, using(crate::proofs::SystemLayout::three_bytes))]
    pub fn q(&self) -> u8
        ensures { result ≡ q_of self.now.bytes.now }
    {
        self.bytes[0]
    }

    // How many unknowns.
    #[tactic(auto, using(crate::proofs::SystemLayout::three_bytes))]
    pub fn n(&self) -> u8
        ensures { result ≡ n_of self.now.bytes.now }
    {
        self.bytes[1]
    }

    // How many polynomials.
    #[tactic(auto, using(crate::proofs::SystemLayout::three_bytes))]
    pub fn m(&self) -> u8
        ensures { result ≡ m_of self.now.bytes.now }
    {
        self.bytes[2]
    }
}
