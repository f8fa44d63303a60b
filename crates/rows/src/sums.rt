// The sum of the products of two rows, in whole numbers of 32 bits.
//
// A row's products go to sixteen running sums in turn, which become one at the row's end: they stay in wide registers all the
// way, where a single sum would be formed out of those for every block. Nothing is reduced on the way: 65,536 products of two
// bytes are below 2^32, and no caller's row has more than 4,752 places.
ghost use Rattle.std.specs.Prelude.{◌≡◌, ◌+◌, ◌*◌, ◌^◌, ◌≤◌, ◌<◌, length, sum};
ghost use Rattle.field.specs.Row.{products};

// Adds the products of sixteen pairs to sixteen sums, one to each.
fn add_products<'a>(sums: &mut [u32], a: &'a [u8], b: &'a [u8])
    requires { (length sums.old ≡ 16) × (length a.now ≡ 16) × (length b.now ≡ 16) × (sum sums.old + 65025 * 16 < 2 ^ 32) }
    ensures { (sum sums.new ≡ sum sums.old + products a.now b.now (length a.now)) × (sum sums.new ≤ sum sums.old + 65025 * 16) }
{
    for k in 0..16 {
        sums[k] += u32::from(a[k]) * u32::from(b[k]);
    }
}

// The sixteen sums as one.
fn total(sums: [u32; 16]) -> u32
    requires { sum sums < 2 ^ 32 }
    ensures { result ≡ sum sums }
{
    sums.iter().sum()
}

// Adds the products of the pairs that are left to the sum of the others.
#[tactic(auto, using(field::proofs::Modulus::byte_product, field::proofs::Rows::products_start, field::proofs::Rows::products_step))]
fn add_rest<'a>(others: u32, a: &'a [u8], b: &'a [u8]) -> u32
    requires { (length a.now ≡ length b.now) × (others + 65025 * length a.now < 2 ^ 32) }
    ensures { result ≡ others + products a.now b.now (length a.now) }
{
    let mut whole = others;
    for i in 0..a.len() {
        whole += u32::from(a[i]) * u32::from(b[i]);
    }
    whole
}

// The sum of the products of a and the front of b, place by place.
pub fn sum_of_products<'a>(a: &'a [u8], b: &'a [u8]) -> u32
    requires { (length a.now ≤ length b.now) × (length a.now ≤ 65536) }
    ensures { result ≡ products a.now b.now (length a.now) }
{
    let mut sums = [0u32; 16];
    let blocks = a.len() / 16;
    for block in 0..blocks {
        let at = 16 * block;
        add_products(&mut sums, &a[at..at + 16], &b[at..at + 16]);
    }
    let at = 16 * blocks;
    let end = a.len();
    add_rest(total(sums), &a[at..end], &b[at..end])
}
