// Laws of the two calls on readable images are stated in specs/ and proved in proofs/; this crate has no code of its own.
#![tactic(auto)]
