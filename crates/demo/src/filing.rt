// A session's record: written, stored where an argument names a file, and reported on.
ghost use Rattle.std.specs.Prelude.{◌≡◌, ◌≤◌, length};

use crate::refused::Refused;
use crate::terms::Terms;
use files::{has_word, path_named, print};
use hex_text::append_hex;
use record_form::Header;
use record_writer::write;
use reporting::{TEXT, report};
use slices::{part, put, zeros};
use std::rt::{Env, Files};
use text::Writer;

// Room for a system and any record.
const BOTH: usize = 1065536;

// Writes the record and reports on it, unless the writer refuses.
pub fn recorded<R: Env + Eprint + Files + Print>(
    rt: &R,
    t: Terms,
    v: &[u8],
    commitments: &[u8],
    exchanges: &[u8],
    number: usize,
) -> Result<(), Refused> {
    let mut both = zeros::<BOTH>();
    let end = written(t, v, commitments, exchanges, &mut both)?;
    let input = part(&both, 0, end);
    let bytes = part(input, t.system.len(), end);
    say_record(rt, bytes);
    store(rt, bytes, number);
    say_report(rt, input);
    Ok(())
}

// Puts the system and behind it the record, and answers where that ends.
fn written(
    t: Terms,
    v: &[u8],
    commitments: &[u8],
    exchanges: &[u8],
    out: &mut [u8],
) -> Result<usize, Refused>
    requires { length out.old ≡ 1065536 }
{
    let header = Header::of_bytes(t.scheme, t.q, t.n, t.m, t.rounds);
    let layout = header.layout();
    let start = t.system.len();
    let end = start + header.record_length();
    put(out, 0, t.system);
    write(
        t.scheme,
        t.q,
        t.n,
        t.m,
        t.rounds,
        v,
        part(commitments, 0, layout.commitments.length),
        part(exchanges, 0, layout.exchanges.length),
        &mut out[start..end],
    )
    .map_err(|refusal| Refused::of(refusal, "record"))?;
    Ok(end)
}

// `record of 533 bytes, SHA-256` and the digest, which is left out if the record is too long for it.
fn say_record<R: Print>(rt: &R, bytes: &[u8]) {
    let mut digest = [0u8; 32];
    let _ = print!(rt; "record of {} bytes", bytes.len());
    if sha256::digest(bytes, &mut digest).is_ok() {
        let _ = print!(rt; ", SHA-256 ");
        say_hex(rt, &digest);
    }
    let _ = println!(rt);
}

fn say_hex<R: Print>(rt: &R, digest: &[u8; 32]) {
    let mut text = [0u8; 64];
    append_hex(&mut Writer::new(&mut text), digest);
    print(rt, &text);
}

// Prints the report on a system and a record.
fn say_report<R: Print>(rt: &R, input: &[u8]) {
    let mut text = zeros::<TEXT>();
    let length = report(input, &mut text);
    print(rt, part(&text, 0, length));
}

// Writes the record to the file that the argument of this number names, if there is one.
fn store<R: Env + Eprint + Files>(rt: &R, bytes: &[u8], number: usize) {
    if !has_word(rt, number) {
        return;
    }
    let mut room = [0u8; 4096];
    if let Some(path) = path_named(rt, number, b"demo: argument", &mut room) {
        store_as(rt, path, bytes);
    }
}

fn store_as<R: Eprint + Files>(rt: &R, path: &str, bytes: &[u8]) {
    if let Err(error) = std::fs::write(rt, path, bytes) {
        let _ = eprintln!(rt; "{path}: {error}");
    }
}
