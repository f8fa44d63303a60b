// The layout of a record's fields, and an audit's answer as one number.
ghost use Rattle.std.specs.Prelude.{◌≡◌, length};
ghost use Rattle.refusal.specs.Refusal.{◌or_else◌, number_of, kept};
ghost use Rattle.system.specs.System.{system_refusal};
ghost use Rattle.record_form.specs.Record.{layout_of, header_in};
ghost use Rattle.finding_layout.specs.FindingLayout.{finding_bytes};
ghost use Rattle.capi.specs.Layouts.{fields_bytes, fields_refusal, audit_number};

use auditing::{Audited, Finding};
use finding_layout::finding_bytes;
use record::{header_of, read};
use record_form::Header;
use refusal::{Refusal, require};
use slices::put_both;
use system::check;

// Writes a record's header, then where its bodies stand.
fn write_fields(h: Header, fields: &mut [u8])
    requires { length fields.old ≡ 30 }
    ensures { fields.new ≡ fields_bytes (layout_of h) }
{
    let head = [1, u8::from(h.scheme), h.q, h.n, h.m, h.rounds];
    let contents = h.table();
    put_both(fields, &head, &contents);
}

// The fields of a record: what is refused leaves them as they were.
#[tactic(auto, using(refusal::proofs::Answers::chain), unfolding(crate::specs::Layouts::fields_refusal))]
pub fn read_fields(bytes: &[u8], fields: &mut [u8]) -> Result<(), Refusal>
    ensures refusal { number_of result ≡ fields_refusal bytes.now (length fields.old) }
    ensures fields { fields.new ≡ kept (number_of result) fields.old (fields_bytes (layout_of (header_in bytes.now))) }
{
    require(fields.len() == 30, Refusal::Length)?;
    read(bytes)?;
    write_fields(header_of(bytes), fields);
    Ok(())
}

// The refusal's number with the record and the round, 0 for a finding: here and below C gets one number.
#[tactic(auto, unfolding(crate::specs::Layouts::audit_number))]
fn audit_number(f: Finding) -> u32
    ensures { result ≡ audit_number f }
{
    match f {
        Finding::Secret => 0,
        Finding::Clash(_) => 0,
        Finding::Refused(number, whose, round) => {
            u32::from(number) + 256 * u32::from(whose) + 65536 * u32::from(round)
        }
    }
}

// The refusal of an output that has not 752 bytes: the system's, else 2. No record is looked at.
#[tactic(auto, using(refusal::proofs::Answers::chain))]
pub fn length_refusal(system: &[u8]) -> u32
    ensures { result ≡ (system_refusal system.now or_else 2) }
{
    match check(system) {
        Ok(()) => u32::from(u8::from(Refusal::Length)),
        Err(refusal) => u32::from(u8::from(refusal)),
    }
}

// Writes what an audit found, and answers 0; or answers the audit's refusal, and leaves the output.
#[tactic(auto, unfolding(refusal::specs::Refusal::kept))]
pub fn answer(audited: Audited, finding: &mut [u8]) -> u32
    requires { length finding.old ≡ 752 }
    ensures { (result ≡ audit_number audited.finding) × (finding.new ≡ kept result finding.old (finding_bytes audited)) }
{
    let refused = audit_number(audited.finding);
    if refused != 0 {
        return refused;
    }
    let bytes = finding_bytes(audited);
    finding.copy_from_slice(&bytes);
    0
}
