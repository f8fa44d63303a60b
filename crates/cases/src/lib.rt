// Files of test vectors: reading their cases, and reporting how they went. The format is in
// reference/README.md.
//
// Every function is total: what a malformed file lacks is None.
#![tactic(auto)]

mod case;
mod kind;
mod reader;
mod run;
mod small;
mod tally;

pub use case::Case;
pub use kind::{Kind, UnknownKind};
pub use reader::Reader;
pub use run::run_cases;
pub use small::Small;

// The bytes of a whole file. A longer one is cut short, and its report then lacks cases.
pub const FILE: usize = 4194304;

// Those of the largest system and of one that is too long.
pub const SYSTEM: usize = 500000;

// The same for a record, a message or a report's input.
pub const RECORD: usize = 131072;

// The same for a book, its labels or its keys.
pub const BOOK: usize = 262144;
