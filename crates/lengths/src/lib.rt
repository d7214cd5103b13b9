// Lengths of a tag image with one record, and of what stands in it. A length past 64 bits is given as the largest 64-bit number.
#![tactic(auto)]

ghost use Rattle.std.specs.Prelude.{◌≡◌, ◌+◌};
ghost use Rattle.layout.specs.Lengths.{sat, head_len, block_len, image_len};

// Header, type length and payload length of a record.
pub fn head_len(payload: usize) -> usize
    ensures { result ≡ head_len payload }
{
    if payload <= 255 { 3 } else { 6 }
}

// What stands in a block before `n` bytes.
pub fn block_len(n: usize) -> usize
    ensures { result ≡ block_len n }
{
    if n < 255 { 2 } else { 4 }
}

// The whole image of a record with a type name of `kind_len` bytes and `payload` bytes of payload.
pub fn image_len_for(kind_len: usize, payload: usize) -> usize
    ensures { result ≡ sat (image_len kind_len payload) }
{
    let record = kind_len
        .saturating_add(payload)
        .saturating_add(head_len(payload));
    record.saturating_add(block_len(record) + 9)
}
