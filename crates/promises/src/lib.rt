// What the rules promise of accepted projections is stated in specs/ and proved in proofs/; this crate has no code of its own.
#![tactic(auto)]
