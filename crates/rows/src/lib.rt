// Sums over rows of elements: F and G spend their time here.
//
// `combine` is told by `sparse` whether a factor is often 0: F then leaves out a product that is 0, and without it, as G calls
// it, nothing looks whether a factor is 0. What this does to the time is by the form of the code and not proved.
#![tactic(auto)]

mod combination;
mod products;
mod sums;

pub use combination::combine;
pub use products::dot;
