#![tactic(auto)]

// The definitions and laws that counting loops are proved by. They stand in specs/ and proofs/; there is no code here.
