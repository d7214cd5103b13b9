// Theorems: what calls leave of a session, and that its state is kept. No code: the session is in `session`, its bytes in `state`.

#![tactic(auto)]
