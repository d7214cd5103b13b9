// The head of a record: how long it is, and the lengths that it says. Whoever calls has seen that it is all there.
#![tactic(auto)]

ghost use Rattle.std.specs.Prelude.{◌≡◌, ◌≤◌, ◌<◌, ◌^◌, length, get_or};
ghost use Rattle.heads.specs.Heads.{head_len, payload_len, id_len};

// Bytes before the type name, by the header.
#[tactic(auto, using(crate::proofs::Heads::head_at))]
pub fn head_len(h: u8) -> usize
    ensures value { result ≡ head_len h }
    ensures upper_bound { result ≤ 7 }
{
    if h / 16 % 2 == 1 {
        if h / 8 % 2 == 1 {
            return 4;
        }
        return 3;
    }
    if h / 8 % 2 == 1 {
        return 7;
    }
    6
}

// The payload's length: one byte, or four, high byte first.
#[tactic(auto, using(crate::proofs::Heads::head_at), unfolding(crate::specs::Heads::head_len, crate::specs::Heads::payload_len))]
pub fn payload_len(s: &[u8], h: u8) -> usize
    requires { (h ≡ get_or s.now 0 0) × (head_len h ≤ length s.now) }
    ensures value { result ≡ payload_len s.now }
    ensures upper_bound { result < 2 ^ 32 }
{
    if h / 16 % 2 == 1 {
        return usize::from(s[2]);
    }
    u32::from_be_bytes([s[2], s[3], s[4], s[5]]) as usize
}

// The id's length, after the payload's; 0 where the header announces no id.
#[tactic(auto, using(crate::proofs::Heads::head_at), unfolding(crate::specs::Heads::id_len))]
pub fn id_len(s: &[u8], h: u8) -> usize
    requires { (h ≡ get_or s.now 0 0) × (head_len h ≤ length s.now) }
    ensures value { result ≡ id_len s.now }
    ensures upper_bound { result < 256 }
{
    if h / 8 % 2 == 1 {
        if h / 16 % 2 == 1 {
            return usize::from(s[3]);
        }
        return usize::from(s[6]);
    }
    0
}
