// Definitions only: the worked cases d1 to d12 of 01, in specs/Cases.antt, with one claim about all of them.

#![tactic(auto)]
