// The bytes of a system of m quadratic polynomials in n unknowns over a field, and what is refused of them.
//
// `check` takes any bytes and refuses, the first that applies: under 3 bytes by their length, a q, n or m outside its values, a wrong
// length, a byte that is no element. What it does not refuse is a `System`.
#![tactic(auto)]

mod checked;
mod layout;

pub use checked::System;
pub use layout::{are_sizes, check, check_against, has_sizes, system_length, width};
