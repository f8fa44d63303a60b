// F and G by value. The monomials of the arguments are formed once, and each polynomial is then one product of two rows.
//
// F calls with `sparse`, and a product that is 0 is left out; G, whose vectors are secret, calls without it, and nothing looks
// whether a factor is 0. That G's time does not tell of them is by the form of the code and not proved: a contract says what
// is computed, and nothing of time.
#![tactic(auto)]

ghost use Rattle.std.specs.Prelude.{◌≡◌, ◌≤◌, length};
ghost use Rattle.field.specs.Ops.{ops};
ghost use Rattle.system.specs.System.{F, G};
ghost use Rattle.polynomials.specs.Monomials.{Monomials, times_row};

use rows::{combine, dot};
use system::{System, width};

// Fills the row with the monomials of x, y, z and t in the stored order of coefficients: 4,752 for 96 unknowns, the most.
// `sparse` says that z is 0, and only saves time.
fn monomials(
    q: u8,
    n: u8,
    x: [u8; 96],
    y: [u8; 96],
    z: [u8; 96],
    t: [u8; 96],
    sparse: bool,
    row: &mut [u8],
)
    requires { (n ≤ 96) × (length row.old ≡ 4752) }
    ensures { Monomials (ops q) n x y z t row.new }
{
    let end = usize::from(n);
    let mut at = 0;
    for i in 0..end {
        let next = at + (end - i);
        combine(
            q,
            x[i],
            &y[i..end],
            z[i],
            &x[i..end],
            &mut row[at..next],
            sparse,
        );
        at = next;
    }
    row[at..at + end].copy_from_slice(&t[..end]);
}

// Each polynomial's coefficients times the monomials.
#[tactic(auto, using(crate::proofs::TimesRow::done_start, crate::proofs::TimesRow::fits, crate::proofs::TimesRow::small, crate::proofs::TimesRow::count, crate::proofs::TimesRow::few))]
fn products(system: &System, row: &[u8]) -> [u8; 96]
    requires { length row.now ≡ 4752 }
    ensures { result ≡ times_row system.now.bytes.now row.now }
{
    let mut out = [0; 96];
    let w = width(system.n());
    let mut at = 3;
    for l in 0..usize::from(system.m()) {
        let next = at + w;
        out[l] = dot(system.q(), &system.bytes[at..next], row);
        at = next;
    }
    out
}

// F(x). F and G are not put inline: the row of G would stand on a caller's stack beside that of F.
#[tactic(auto, using(crate::proofs::Evaluation::few_unknowns, crate::proofs::Evaluation::is_f))]
#[inline(never)]
pub fn f(system: &System, x: [u8; 96]) -> [u8; 96]
    ensures { result ≡ F system.now.bytes.now x }
{
    let mut row = [0; 4752];
    monomials(system.q(), system.n(), x, x, [0; 96], x, true, &mut row);
    products(system, &row)
}

// G(x, y).
#[tactic(auto, using(crate::proofs::Evaluation::few_unknowns, crate::proofs::Evaluation::is_g))]
#[inline(never)]
pub fn g(system: &System, x: [u8; 96], y: [u8; 96]) -> [u8; 96]
    ensures { result ≡ G system.now.bytes.now x y }
{
    let mut row = [0; 4752];
    monomials(system.q(), system.n(), x, y, y, [0; 96], false, &mut row);
    products(system, &row)
}
