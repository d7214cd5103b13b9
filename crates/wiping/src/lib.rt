// A wipe's acknowledged steps by a short way: what they lead to, and the laws by which that is what the general way leaves. Nearly every step
// of a session is one of a wipe. No code: that is in `onward`, `shortcut` and `sweeping`.
#![tactic(auto)]

pub mod after;
pub mod short;
