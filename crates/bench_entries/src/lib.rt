// What the benchmarks in bench/ call and the C interface lacks, under C names. All is made of the product's functions: what is
// timed and whose stack use is measured is their code and no copy of it. Only the loop that counts accepted rounds is this
// crate's own.
//
// Nothing here is part of the product. `bench_judge` judges a whole record, `bench_write` is the writer, and `bench_card` and
// `bench_carrier` run all calls of one round of a session.
#![tactic(auto)]

mod judging;
mod sessions;
mod writing;

pub use judging::bench_judge;
pub use sessions::{bench_card, bench_carrier};
pub use writing::bench_write;
