// What an audit answers as 752 bytes, for the C interface and for stored cases.
#![tactic(auto)]

ghost use Rattle.std.specs.Prelude.{◌≡◌, length};
ghost use Rattle.finding_layout.specs.FindingLayout.{kind_bytes, text_bytes, finding_bytes};

use auditing::{Audited, Finding};
use commitment::Text;
use slices::{put_both, word};

// Which finding it is, and what it says.
#[tactic(auto, unfolding(crate::specs::FindingLayout::kind_bytes))]
fn kind_bytes(f: Finding) -> [u8; 4]
    ensures { (result ≡ kind_bytes f) × (length result ≡ 4) }
{
    match f {
        Finding::Secret => [1, 0, 0, 0],
        Finding::Clash(k) => [2, k, 0, 0],
        Finding::Refused(number, whose, round) => [0, number, whose, round],
    }
}

// A string, its length before its bytes.
#[tactic(auto, unfolding(crate::specs::FindingLayout::text_bytes))]
fn text_bytes(t: Text) -> [u8; 326]
    ensures { (result ≡ text_bytes t) × (length result ≡ 326) }
{
    let Text { len, bytes, .. } = t;
    let mut out = [0; 326];
    put_both(&mut out, &word(len), &bytes);
    out
}

// What it is, the secret, then the two strings.
#[tactic(auto, unfolding(crate::specs::FindingLayout::finding_bytes))]
pub fn finding_bytes(audited: Audited) -> [u8; 752]
    ensures { (result ≡ finding_bytes audited) × (length result ≡ 752) }
{
    let Audited {
        finding,
        secret,
        first,
        second,
    } = audited;
    let mut start = [0; 100];
    let mut strings = [0; 652];
    let mut out = [0; 752];
    put_both(&mut start, &kind_bytes(finding), &secret);
    put_both(&mut strings, &text_bytes(first), &text_bytes(second));
    put_both(&mut out, &start, &strings);
    out
}
