// One block of a tag image that a phone wrote: its length, and what it is.
#![tactic(auto)]

ghost use Rattle.std.specs.Prelude.{◌≡◌, ◌≤◌, ◌<◌, length};
ghost use Rattle.tlv.specs.Blocks.{tlv_length, block_of, body_of};

// A part of an image: its place and its length.
#[derive(Clone, Copy)]
pub struct Span {
    pub at: usize,
    pub len: usize,
}

// A block's length: the number, and how many bytes it takes itself.
#[derive(Clone, Copy)]
pub struct Length {
    pub len: usize,
    pub size: usize,
}

// What stands at the front of the blocks: bytes to step over, the message with its place and length, the end.
#[derive(Clone, Copy)]
pub enum Block {
    Over(usize),
    Body(Span),
    Stop,
}

// The length after a block's type: one byte, or FF and two more, high byte first. None where it is not all there.
#[tactic(auto, unfolding(crate::specs::Blocks::tlv_length))]
pub fn tlv_len(after_type: &[u8]) -> Option<Length>
    ensures { result ≡ tlv_length after_type.now }
{
    if after_type.len() == 0 {
        return None;
    }
    if after_type[0] == 0xFF {
        if after_type.len() < 3 {
            return None;
        }
        return Some(Length {
            len: usize::from(u16::from_be_bytes([after_type[1], after_type[2]])),
            size: 3,
        });
    }
    Some(Length {
        len: usize::from(after_type[0]),
        size: 1,
    })
}

// A block of type `t` whose `len` bytes begin at `from`: None where they run past the bytes.
#[tactic(auto, unfolding(crate::specs::Blocks::body_of))]
fn body(s: &[u8], t: u8, from: usize, len: usize) -> Option<Block>
    requires { from ≤ length s.now }
    ensures { result ≡ body_of s.now t from len }
{
    if s.len() - from < len {
        return None;
    }
    if t == 0x03 {
        return Some(Block::Body(Span { at: from, len }));
    }
    Some(Block::Over(from + len))
}

// What stands at the front of the blocks: None where a length is not all there, or runs past the bytes.
#[tactic(auto, using(crate::proofs::Blocks::tlv_there), unfolding(crate::specs::Blocks::block_of))]
pub fn block_at(s: &[u8]) -> Option<Block>
    ensures { result ≡ block_of s.now }
{
    if s.len() == 0 {
        return Some(Block::Stop);
    }
    let t = s[0];
    if t == 0x00 {
        return Some(Block::Over(1));
    }
    if t == 0xFE {
        return Some(Block::Stop);
    }
    let length = tlv_len(&s[1..])?;
    body(s, t, 1 + length.size, length.len)
}
