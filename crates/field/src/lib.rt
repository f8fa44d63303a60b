// Fields and vectors. A field is named by its q: 2, 7, 31 or 251. Its elements are the bytes below q, and a vector is
// held by value in 96 bytes, zero beyond its length.
//
// Nothing here refuses: for a q that is no field's every result is 0. Whoever takes a q, a length or an element from
// outside refuses it first.
#![tactic(auto)]

mod row;
mod scalar;
mod vector;

pub use row::all_below;
pub use scalar::{add, is_field, mul, reduce_total, sub};
pub use vector::{add_vectors, clamped, from_slice, mul_vector, slot, sub_vectors};
