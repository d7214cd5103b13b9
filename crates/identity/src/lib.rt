// Whether what answers is the part.
#![tactic(auto)]

ghost use Rattle.std.specs.Prelude.{◌≡◌, ◌≤◌, length, take};
ghost use Rattle.protocol.specs.Setup.{is_the_part};

// Whether twelve bytes from MEM_SIZE on are those of an ST25DV of 8 KB.
pub fn is_the_part(id: &[u8]) -> bool
    requires { 12 ≤ length id.now }
    ensures { result ≡ is_the_part (take 12 id.now) }
{
    let last = usize::from(u16::from_le_bytes([id[0], id[1]]));
    (id[11] == 0xE0) & ((last + 1) * 4 == 8192)
}
