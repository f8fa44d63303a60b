// A run through a file, group by group.
use crate::case::{Case, next_case, next_group};
use crate::reader::Reader;
use crate::tally::Tally;

// Where the case or the group at fault starts.
#[derive(Clone, Copy)]
struct Malformed {
    at: usize,
}

// Makes each case's call in turn, and prints how many agree, a line for each group and one for all. What a call answers is
// whether the case agrees, or None if it is malformed. A malformed case or group ends the run, which says where it starts.
pub fn run_cases<'a, R: Print, F: FnMut(Case<'a>) -> Option<bool>>(rt: &R, file: &'a [u8], call: F)
    requires { F.IsAlwaysCallable call }
{
    if let Err(malformed) = run_groups(rt, file, call) {
        let _ = println!(rt; "malformed at byte {}", malformed.at);
    }
}

fn run_groups<'a, R: Print, F: FnMut(Case<'a>) -> Option<bool>>(
    rt: &R,
    file: &'a [u8],
    mut call: F,
) -> Result<(), Malformed>
    requires { F.IsAlwaysCallable call }
{
    let mut reader = Reader { rest: file };
    let mut total = Tally::none();
    // Groups are read until the file ends: how many there are is told nowhere.
    'groups: loop {
        let at = file.len() - reader.rest.len();
        let group = next_group(&mut reader).ok_or(Malformed { at })?;
        let mut tally = Tally::none();
        'cases: for _ in 0..group.cases {
            let at = file.len() - reader.rest.len();
            let case = next_case(&mut reader).ok_or(Malformed { at })?;
            let agrees = call(case).ok_or(Malformed { at })?;
            tally.count(agrees);
            total.count(agrees);
        }
        print_line(rt, group.name, tally);
        if reader.rest.is_empty() {
            print_line(rt, b"total", total);
            return Ok(());
        }
    }
}

// NAME: N cases, M agree
fn print_line<R: Print>(rt: &R, name: &[u8], tally: Tally) {
    files::print(rt, name);
    let _ = println!(rt; ": {tally}");
}
