// The worked examples of document 01, "The small key", as one proved statement about the definitions, and a whole session with
// this key for every N. It has no code: the statement is in specs/SmallKey.antt, the proofs in proofs/.
#![tactic(auto)]
