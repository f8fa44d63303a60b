// Reads a system and then a record from standard input, and prints how each round was judged, the verdict, and both totals.
#![tactic(auto)]

use files::{print, read_input};
use reporting::{INPUT, TEXT, report};
use slices::zeros;

fn main(rt: HostRuntime) {
    let mut input = zeros::<INPUT>();
    let mut text = zeros::<TEXT>();
    let length = read_input(&rt, &mut input);
    let written = report(&input[..length], &mut text);
    print(&rt, &text[..written]);
}
