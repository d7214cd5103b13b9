// Demand 3: nothing is left behind. The claims stand in proofs/Theorems.antt, over the definitions of specs/. No code is needed for them.

#![tactic(auto)]
