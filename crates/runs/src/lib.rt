// No functions: the ledger, runs and the claims of demand 3 (`specs/`), and their proofs (`proofs/`).
#![tactic(auto)]
