// The whole evening: what a receiver lets in of a sender's run. Definitions (specs) and theorem (proofs), no code.

#![tactic(auto)]
