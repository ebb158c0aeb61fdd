// No functions: laws on integers and on tables that the proofs of more than one crate cite.
#![tactic(auto)]
