#![tactic(auto)]

// Mirrored runs and flipped tables. The statements stand in specs/, their proofs in proofs/; there is no code here.
