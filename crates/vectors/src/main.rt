// Runs the stored vectors of all single calls against the proved engine, and reports group by group how many agree. The file
// and its kinds of case are described in reference/README.md; session_vectors runs the sessions' calls.
#![tactic(auto)]

use cases::{Case, FILE, Kind, RECORD, SYSTEM, run_cases};
use files::read_input;
use slices::zeros;

fn main(rt: HostRuntime) {
    let mut file = zeros::<FILE>();
    let length = read_input(&rt, &mut file);
    let mut system = zeros::<SYSTEM>();
    let mut a = zeros::<RECORD>();
    let mut b = zeros::<RECORD>();
    let mut c = zeros::<RECORD>();
    let mut d = zeros::<RECORD>();
    run(
        &rt,
        &file[..length],
        &mut system,
        &mut a,
        &mut b,
        &mut c,
        &mut d,
    );
}

fn run<R: Print>(
    rt: &R,
    file: &[u8],
    system: &mut [u8],
    a: &mut [u8],
    b: &mut [u8],
    c: &mut [u8],
    d: &mut [u8],
) {
    run_cases(rt, file, |case| run_case(case, system, a, b, c, d));
}

// Runs a case by its kind. One that is a session's or a book's is malformed.
fn run_case(
    case: Case,
    system: &mut [u8],
    a: &mut [u8],
    b: &mut [u8],
    c: &mut [u8],
    d: &mut [u8],
) -> Option<bool> {
    match case.kind {
        Kind::CheckSystem | Kind::Evaluate | Kind::Polar => system_cases::system_case(case, system),
        Kind::Digest => sha256_cases::sha256_case(case, a),
        Kind::Commit | Kind::Answer | Kind::Reply | Kind::Judge => {
            round_cases::round_case(case, system)
        }
        Kind::Simulate => simulator_cases::simulator_case(case, system),
        Kind::ReadRecord | Kind::WriteRecord => record_cases::record_case(case, a, b, c, d),
        Kind::Report => report_cases::report_case(case, a),
        Kind::AuditThree | Kind::AuditFive => audit_cases::audit_case(case, system, a, b, c, d),
        _ => None,
    }
}
