// Theorem: a host that has the steps and its own buffers alone makes the definition's run. No code.

#![tactic(auto)]
