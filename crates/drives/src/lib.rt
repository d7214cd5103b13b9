// Theorem: a session that is driven with its own counter reports exactly the rows of the definition's trace. No code.

#![tactic(auto)]
