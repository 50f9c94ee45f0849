// The ledger, the plain machine that demand 3 judges the board by: theory only, see specs/ and proofs/.
#![tactic(auto)]
