// The two protocols of document 01, "Three-pass round", "Five-pass round" and "Simulator", as definitions over vectors, and their
// completeness, special soundness and simulation. It has no code: the definitions are in specs/, the theorems in proofs/.
#![tactic(auto)]
