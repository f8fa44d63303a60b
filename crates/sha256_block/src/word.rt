// The operations on 32-bit words of FIPS 180-4, 3.2 and 4.1.2, but for the sum modulo 2^32, which is `wrapping_add`.
ghost use Rattle.std.specs.Prelude.{◌≡◌, ◌<◌};
ghost use Rattle.sha256_block.specs.Words.{ROTR, Ch, Maj, Σ0, Σ1, σ0, σ1};

// x rotated right by n bits. Rotations are the program's own: a rule of the project, so not the library's `rotate_right`.
#[tactic(auto, unfolding(crate::specs::Words::ROTR))]
pub fn rotate_right(x: u32, n: u32) -> u32
    requires { (0 < n) × (n < 32) }
    ensures { result ≡ ROTR n x }
{
    (x >> n) | (x << (32 - n))
}

// The bits of y where x has ones, and those of z where it has zeros.
#[tactic(auto, unfolding(crate::specs::Words::Ch))]
pub fn choose(x: u32, y: u32, z: u32) -> u32
    ensures { result ≡ Ch x y z }
{
    (x & y) ^ (!x & z)
}

// The bits that two or three of the words have.
#[tactic(auto, unfolding(crate::specs::Words::Maj))]
pub fn majority(x: u32, y: u32, z: u32) -> u32
    ensures { result ≡ Maj x y z }
{
    (x & y) ^ (x & z) ^ (y & z)
}

// The four functions stay apart: each is its definition in the standard, by the name that it has there.
#[tactic(auto, using(crate::proofs::Operations::upper_sigma0_is))]
pub fn upper_sigma0(x: u32) -> u32
    ensures { result ≡ Σ0 x }
{
    rotate_right(x, 2) ^ rotate_right(x, 13) ^ rotate_right(x, 22)
}

#[tactic(auto, using(crate::proofs::Operations::upper_sigma1_is))]
pub fn upper_sigma1(x: u32) -> u32
    ensures { result ≡ Σ1 x }
{
    rotate_right(x, 6) ^ rotate_right(x, 11) ^ rotate_right(x, 25)
}

#[tactic(auto, using(crate::proofs::Operations::lower_sigma0_is))]
pub fn lower_sigma0(x: u32) -> u32
    ensures { result ≡ σ0 x }
{
    rotate_right(x, 7) ^ rotate_right(x, 18) ^ (x >> 3)
}

#[tactic(auto, using(crate::proofs::Operations::lower_sigma1_is))]
pub fn lower_sigma1(x: u32) -> u32
    ensures { result ≡ σ1 x }
{
    rotate_right(x, 17) ^ rotate_right(x, 19) ^ (x >> 10)
}
