// Laws of the rules: stated in specs/, proved in proofs/, whose parts every layer cites. This crate has no code of its own.
#![tactic(auto)]
