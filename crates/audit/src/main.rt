// Audits records that lie in files: of scheme 3 with the arguments SYSTEM A B C, of scheme 5 with SYSTEM A B C D.
//
// Standard output has the finding: `secret` and the secret's bytes; `clash`, which commitment, and a line for each of the two
// strings; or `refused` and the number, with 8 also the record and the round. Bytes are hexadecimal digits, two a byte. Where
// the arguments or the files are no good, standard error says why, and standard output stays empty. The exit status is 0 in every
// case.
#![tactic(auto)]

use audit_lines::{File, five_text, three_text};
use files::{count_words, load, print};
use slices::{part, zeros};
use std::rt::{Env, Files};

// How many words there are with a system and three or four records, the program's name among them.
const WITH_THREE: usize = 5;

const WITH_FOUR: usize = 6;

// Room for the largest well-formed file, and for one byte more, by which a file that is too large shows: a system's 456,195 bytes,
// and a record's 114,621, those of scheme 3 with n = m = 96 and N = 255.
const SYSTEM: usize = 456196;

const RECORD: usize = 114622;

// Room for the longest text.
const TEXT: usize = 2048;

// Said where an argument can't be taken.
const MISSING: &[u8] = b"audit: argument";

fn main(rt: HostRuntime) {
    let mut text = zeros::<TEXT>();
    let words = count_words(&rt, WITH_FOUR + 1);
    let written = match words {
        WITH_THREE | WITH_FOUR => audited_files(&rt, words, &mut text),
        _ => usage(&rt),
    };
    if let Some(length) = written {
        print(&rt, part(&text, 0, length));
    }
}

// Answers that there is no text.
fn usage<R: Eprint>(rt: &R) -> Option<usize> {
    let _ = eprintln!(rt; "usage: audit SYSTEM A B C (scheme 3)");
    let _ = eprintln!(rt; "       audit SYSTEM A B C D (scheme 5)");
    None
}

// Reads a system and three or four records, as many as there are words for, audits them, and answers how long the text is.
fn audited_files<R: Env + Files + Eprint>(
    rt: &R,
    words: usize,
    text: &mut [u8; TEXT],
) -> Option<usize> {
    let mut system = zeros::<SYSTEM>();
    let mut a = zeros::<RECORD>();
    let mut b = zeros::<RECORD>();
    let mut c = zeros::<RECORD>();
    let system = loaded(rt, 1, &mut system)?;
    let a = loaded(rt, 2, &mut a)?;
    let b = loaded(rt, 3, &mut b)?;
    let c = loaded(rt, 4, &mut c)?;
    if words == WITH_THREE {
        Some(three_text(system, a, b, c, text))
    } else {
        with_fourth(rt, system, a, b, c, text)
    }
}

// Reads the fourth record and audits all four.
fn with_fourth<R: Env + Files + Eprint>(
    rt: &R,
    system: File,
    a: File,
    b: File,
    c: File,
    text: &mut [u8; TEXT],
) -> Option<usize> {
    let mut d = zeros::<RECORD>();
    let d = loaded(rt, 5, &mut d)?;
    Some(five_text(system, a, b, c, d, text))
}

// The file that argument i names, in a buffer.
fn loaded<'a, R: Env + Files + Eprint>(rt: &R, i: usize, buffer: &'a mut [u8]) -> Option<File<'a>> {
    let length = load(rt, i, MISSING, buffer)?;
    Some(File { buffer, length })
}
