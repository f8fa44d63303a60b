// Messages put together in a lent output of their length: pieces one behind the other. Three contracts ask that n is at most 96: it
// comes from a system or from a session, and a reply of the card has no system at hand whose type would say so.
ghost use Rattle.std.specs.Prelude.{◌≡◌, ◌+◌, ◌≤◌, length};
ghost use Rattle.scheme.specs.declared.Scheme.TheVariants.{ThreePass, FivePass};
ghost use Rattle.scheme.specs.Scheme.{commitments_length, rhos_length, reply_length};
ghost use Rattle.exchange.specs.Messages.{three_commitments, five_commitments, reply_three_bytes, middle_bytes, reply_five_bytes};

use round::{CommitmentsFive, CommitmentsThree, Middle, ReplyFive, ReplyThree};
use slices::put_both;

// c0, c1 and c2 of three passes.
#[tactic(auto, using(crate::proofs::Joined::joined), unfolding(crate::specs::Messages::three_commitments, scheme::specs::Scheme::commitments_length, scheme::specs::Scheme::commitment_count))]
pub fn write_three_commitments(c: CommitmentsThree, out: &mut [u8])
    requires { length out.old ≡ commitments_length ThreePass }
    ensures { out.new ≡ three_commitments c }
{
    let CommitmentsThree { c0, c1, c2 } = c;
    out.copy_from_slice([c0, c1, c2].as_flattened());
}

// A reply of three passes.
#[tactic(auto, using(crate::proofs::Joined::joined), unfolding(crate::specs::Messages::reply_three_bytes, scheme::specs::Scheme::reply_length, scheme::specs::Scheme::vectors_length, scheme::specs::Scheme::rhos_length, scheme::specs::Scheme::opened_count))]
pub fn write_reply_three(r: ReplyThree, n: u8, m: u8, out: &mut [u8])
    requires { (n ≤ 96) × (m ≤ 96) × (length out.old ≡ reply_length ThreePass n m) }
    ensures { out.new ≡ reply_three_bytes n m r }
{
    let n = usize::from(n);
    let m = usize::from(m);
    let (first_two, rest) = out.split_at_mut(n + n);
    let (third, rhos) = rest.split_at_mut(m);
    put_both(first_two, &r.x[..n], &r.y[..n]);
    third.copy_from_slice(&r.z[..m]);
    put_both(rhos, &r.first, &r.second);
}

// c0 and c1 of five passes.
#[tactic(auto, using(crate::proofs::Joined::joined), unfolding(crate::specs::Messages::five_commitments, scheme::specs::Scheme::commitments_length, scheme::specs::Scheme::commitment_count))]
pub fn write_five_commitments(c: CommitmentsFive, out: &mut [u8])
    requires { length out.old ≡ commitments_length FivePass }
    ensures { out.new ≡ five_commitments c }
{
    let CommitmentsFive { c0, c1 } = c;
    out.copy_from_slice([c0, c1].as_flattened());
}

// t1 and e1.
#[tactic(auto, unfolding(crate::specs::Messages::middle_bytes))]
pub fn write_middle(sent: Middle, n: u8, m: u8, out: &mut [u8])
    requires { (n ≤ 96) × (m ≤ 96) × (length out.old ≡ n + m) }
    ensures { out.new ≡ middle_bytes n m sent }
{
    put_both(out, &sent.t1[..usize::from(n)], &sent.e1[..usize::from(m)]);
}

// A reply of five passes.
#[tactic(auto, unfolding(crate::specs::Messages::reply_five_bytes, scheme::specs::Scheme::rhos_length, scheme::specs::Scheme::opened_count))]
pub fn write_reply_five(r: ReplyFive, n: u8, out: &mut [u8])
    requires { (n ≤ 96) × (length out.old ≡ n + rhos_length FivePass) }
    ensures { out.new ≡ reply_five_bytes n r }
{
    put_both(out, &r.x[..usize::from(n)], &r.rho);
}
