// Honest rounds at their bytes: what a card that holds the secret sends is accepted, has its lengths and holds elements. It has no
// code: the theorems are in proofs/.
#![tactic(auto)]
