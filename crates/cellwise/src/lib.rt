// Laws of work cell by cell and case by case, which the proofs of the code no longer cite: specifications only. No crate depends on this one.
#![tactic(auto)]
