// The sale desk and the demands: what the desk writes is what one receiver's run gives. Definitions (specs) and theorems (proofs), no code.

#![tactic(auto)]
