// Only one answer meets a promise. The laws stand in proofs/Theorems.antt; no code is needed for them.

#![tactic(auto)]
