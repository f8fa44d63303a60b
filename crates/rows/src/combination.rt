// A combination of two rows, place by place.
ghost use Rattle.std.specs.Prelude.{◌≡◌, ◌≤◌, ◌<◌, ℕ, length};
ghost use Rattle.slices.specs.Slices.{◌!◌, tabulate};
ghost use Rattle.field.specs.Ops.{ops};

use field::{add, mul};

// Fills out with what f gives of the two rows' elements at each place. Put inline, its loops are no longer made apart for each q:
// F and G then take 1.2 times as long at (2, 84, 80).
#[inline(never)]
fn fill<'a, F: Fn(u8, u8) -> u8>(x: &'a [u8], y: &'a [u8], out: &mut [u8], f: F)
    requires { (length out.old ≤ length x.now) × (length out.old ≤ length y.now) × F.IsAlwaysCallable f }
    ensures length { length out.new ≡ length out.old }
    ensures given { (i : ℕ) → i < length out.old → F.post f (x.now ! i) (y.now ! i) (out.new ! i) }
{
    for place in 0..out.len() {
        out[place] = f(x[place], y[place]);
    }
}

// Fills out with a·x + b·y, place by place. `sparse` says that b is often 0, and is for saving time alone: without it the time
// taken does not tell what b is, which may be secret.
pub fn combine<'a>(q: u8, a: u8, x: &'a [u8], b: u8, y: &'a [u8], out: &mut [u8], sparse: bool)
    requires { (length out.old ≤ length x.now) × (length out.old ≤ length y.now) }
    ensures { out.new ≡ tabulate (length out.old)
        (λ i. (ops q).add ((ops q).mul a (x.now ! i)) ((ops q).mul b (y.now ! i))) }
{
    // By `move`: factors read by reference at each place take G 1.5 times as long at (31, 64, 64).
    let scale = move |x, _| mul(q, a, x);
    let blend = move |x, y| add(q, mul(q, a, x), mul(q, b, y));
    if sparse && b == 0 {
        fill(x, y, out, scale);
    } else {
        fill(x, y, out, blend);
    }
}
