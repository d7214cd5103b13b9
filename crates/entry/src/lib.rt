// What holds where a call is started or goes on: what is asked for fits the lent buffers, and the code comes to what telling/specs/Left says.
// No code: that is in `starting`, `replying` and `asking`.

#![tactic(auto)]
