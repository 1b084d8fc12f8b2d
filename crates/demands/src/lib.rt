// What is promised of every run of a sender and of a receiver, from set-up on: definitions (specs) and theorems (proofs), no code.

#![tactic(auto)]
