// Demand 3's first half: an audit has a finding exactly when it should, and what it finds is right. It has no code: the audits
// are those of `auditing`, by the definitions that their contracts cite.
#![tactic(auto)]
