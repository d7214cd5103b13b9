// What the library promises, in one file: proofs/Headlines.antt. No code is needed for it.

#![tactic(auto)]
