// Elements: whether q is a field's, and the three operations.
ghost use Rattle.std.specs.Prelude.{◌≡◌, ◌%◌};
ghost use Rattle.field.specs.Ops.{is_field, modulus, ops};

// Whether q is one of the four.
#[tactic(auto, unfolding(crate::specs::Ops::is_field))]
pub fn is_field(q: u8) -> bool
    ensures { result ≡ is_field q }
{
    matches!(q, 2 | 7 | 31 | 251)
}

// What results are reduced by: q, and 1 for a q that is no field's.
#[tactic(auto, unfolding(crate::specs::Ops::modulus))]
fn modulus_of(q: u8) -> u16
    ensures { result ≡ modulus q }
{
    if is_field(q) { u16::from(q) } else { 1 }
}

// The remainder of x by q, and 0 for a q that is no field's. Each division is by a constant. Sums and products of two bytes
// fit 16 bits, in which a vector's are reduced eight at a time. A remainder fits a byte: `try_from` would have a branch that no
// run takes.
#[tactic(auto, unfolding(crate::specs::Ops::is_field, crate::specs::Ops::modulus))]
fn reduce(q: u8, x: u16) -> u8
    ensures { result ≡ x % modulus q }
{
    match q {
        2 => (x % 2) as u8,
        7 => (x % 7) as u8,
        31 => (x % 31) as u8,
        251 => (x % 251) as u8,
        _ => 0,
    }
}

// The same of a sum of 32 bits, from its two halves, of which the high one counts 65,536. One division of 32 bits by a constant
// would be compiled into a product of 64. Each half fits the 16 bits to which it is cut.
#[tactic(auto, using(crate::proofs::Remainders::two_halves))]
pub fn reduce_total(q: u8, total: u32) -> u8
    ensures { result ≡ total % modulus q }
{
    let high = reduce(q, (total / 65536) as u16);
    let low = reduce(q, (total % 65536) as u16);
    let unit = reduce(q, u16::from(reduce(q, 65535)) + 1);
    reduce(q, u16::from(high) * u16::from(unit) + u16::from(low))
}

#[tactic(auto, unfolding(crate::specs::Ops::ops))]
pub fn add(q: u8, a: u8, b: u8) -> u8
    ensures { result ≡ (ops q).add a b }
{
    reduce(q, u16::from(a) + u16::from(b))
}

// a - b: the modulus is added before b's remainder is taken away, so that nothing falls below 0.
#[tactic(auto, using(crate::proofs::Modulus::remainder_below), unfolding(crate::specs::Ops::ops))]
pub fn sub(q: u8, a: u8, b: u8) -> u8
    ensures { result ≡ (ops q).sub a b }
{
    let taken = u16::from(reduce(q, u16::from(b)));
    reduce(q, u16::from(a) + (modulus_of(q) - taken))
}

#[tactic(auto, unfolding(crate::specs::Ops::ops))]
pub fn mul(q: u8, a: u8, b: u8) -> u8
    ensures { result ≡ (ops q).mul a b }
{
    reduce(q, u16::from(a) * u16::from(b))
}
