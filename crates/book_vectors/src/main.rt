// Runs the stored vectors of the key book's reader, writer and lookup against the proved engine, and reports group by group how
// many agree. The file and its kinds of case are described in reference/README.md.
#![tactic(auto)]

mod lookup;
mod read;
mod write;

use crate::lookup::lookup_case;
use crate::read::read_case;
use crate::write::write_case;
use cases::{BOOK, Case, FILE, Kind, run_cases};
use files::read_input;
use slices::zeros;

fn main(rt: HostRuntime) {
    let mut file = zeros::<FILE>();
    let length = read_input(&rt, &mut file);
    let mut labels = zeros::<BOOK>();
    let mut keys = zeros::<BOOK>();
    let mut book = zeros::<BOOK>();
    let mut out = zeros::<BOOK>();
    run(
        &rt,
        &file[..length],
        &mut labels,
        &mut keys,
        &mut book,
        &mut out,
    );
}

fn run<R: Print>(
    rt: &R,
    file: &[u8],
    labels: &mut [u8],
    keys: &mut [u8],
    book: &mut [u8],
    out: &mut [u8],
) {
    run_cases(rt, file, |case| run_case(case, labels, keys, book, out));
}

// Runs a case by its kind. One that is no book's is malformed. The book that is read or looked up in is expanded into the buffer
// for the one that the writer must write.
fn run_case(
    case: Case,
    labels: &mut [u8],
    keys: &mut [u8],
    book: &mut [u8],
    out: &mut [u8],
) -> Option<bool> {
    match case.kind {
        Kind::ReadBook => read_case(case, book),
        Kind::WriteBook => write_case(case, labels, keys, book, out),
        Kind::LookUp => lookup_case(case, book),
        _ => None,
    }
}
