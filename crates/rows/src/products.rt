// The sum of the products of two rows, in the field of q. That a is no longer than b stands in three contracts, here and in `sums`: it
// is said of two rows, and a type that held both would be built for each call.
ghost use Rattle.std.specs.Prelude.{◌≡◌, ◌%◌, ◌≤◌, length};
ghost use Rattle.slices.specs.Slices.{◌!◌};
ghost use Rattle.field.specs.Ops.{ops};
ghost use Rattle.field.specs.Vector.{sum};
ghost use Rattle.field.specs.Row.{products};

use crate::sums::sum_of_products;
use field::reduce_total;

// The remainder by 2, which is all that the field of two elements keeps: of sums the differing bits, of products the common
// ones. Every bit of `bits` is such a sum, and the last is that of the elements.
fn parity<'a>(a: &'a [u8], b: &'a [u8]) -> u8
    requires { length a.now ≤ length b.now }
    ensures { result ≡ products a.now b.now (length a.now) % 2 }
{
    let mut bits: u8 = 0;
    for (x, y) in a.iter().zip(b) {
        bits ^= *x & *y;
    }
    bits % 2
}

// The sum of the products of a and the front of b, place by place.
pub fn dot<'a>(q: u8, a: &'a [u8], b: &'a [u8]) -> u8
    requires { (length a.now ≤ length b.now) × (length a.now ≤ 65536) }
    ensures { result ≡ sum (ops q) (length a.now) (λ k. (ops q).mul (a.now ! k) (b.now ! k)) }
{
    if q == 2 {
        parity(a, b)
    } else {
        reduce_total(q, sum_of_products(a, b))
    }
}
