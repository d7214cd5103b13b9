// Demand 3 throws wrong programs out: proofs/ThrownOut.antt has for each a history on which a claim fails. No code is needed for it.

#![tactic(auto)]
