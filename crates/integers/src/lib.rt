// Laws of ℤ for the proofs of other crates: no function, and no definition.
#![tactic(auto)]
