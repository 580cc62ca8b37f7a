#![tactic(auto)]

// The proved examples. The statement stands in specs/, its proof in proofs/; there is no code here.
