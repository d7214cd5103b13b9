// Finds the message in a tag image that a phone wrote: the container, then block after block.
#![tactic(auto)]

ghost use Rattle.std.specs.Prelude.{◌≡◌, ◌≤◌, length};
ghost use Rattle.blocks.specs.Read.{message_from, e1_len, container_len, read_of, unread_number, number_of};

use tlv::{Block, Span, block_at};

// Why an image has no message.
#[derive(Clone, Copy)]
pub enum Unread {
    // 11: no container that is known here.
    NoContainer,
    // 12: the blocks end, and none was the message.
    NoMessage,
    // 13: a length is not all there, or runs past the bytes.
    Truncated,
}

// Document 01's number.
impl From<Unread> for u8 {
    ghost from_gives = { λ why n. n ≡ unread_number why };

    fn from(why: Unread) -> u8 {
        match why {
            Unread::NoContainer => 11,
            Unread::NoMessage => 12,
            Unread::Truncated => 13,
        }
    }
}

// Document 01's number: 0 where there is a message. By itself, as `records::number` and `walk::number` are: `number_of` is what C is promised.
pub fn number(m: Result<Span, Unread>) -> u8
    ensures { result ≡ number_of m }
{
    match m {
        Ok(_) => 0,
        Err(why) => why.into(),
    }
}

// The message, from a place in the image on. The blocks that are left are a part of the image that starts in the middle. How far a turn goes is for
// the block to say, so no iterator counts the turns.
#[tactic(auto, using(crate::proofs::Blocks::next_there, crate::proofs::Blocks::message_there))]
fn message_from(image: &[u8], start: usize) -> Result<Span, Unread>
    requires { start ≤ length image.now }
    ensures { result ≡ message_from image.now start }
{
    let mut at = start;
    loop {
        match block_at(&image[at..]) {
            Some(Block::Over(n)) => {
                at += n;
            }
            Some(Block::Body(body)) => {
                return Ok(Span {
                    at: at + body.at,
                    len: body.len,
                });
            }
            Some(Block::Stop) => {
                return Err(Unread::NoMessage);
            }
            None => {
                return Err(Unread::Truncated);
            }
        }
    }
}

// How many bytes a container takes that begins with E1, by its third byte.
fn e1_len(third: u8) -> usize
    ensures { result ≡ e1_len third }
{
    if third == 0 { 8 } else { 4 }
}

// How many bytes the container takes.
#[tactic(auto, unfolding(crate::specs::Read::container_len))]
fn container_len(image: &[u8]) -> Option<usize>
    ensures { result ≡ container_len image.now }
{
    if image.len() < 3 {
        return None;
    }
    match image[0] {
        0xE1 => Some(e1_len(image[2])),
        0xE2 => Some(8),
        _ => None,
    }
}

// The message in an image.
#[tactic(auto, using(crate::proofs::Containers::container_least), unfolding(crate::specs::Read::read_of))]
pub fn read(image: &[u8]) -> Result<Span, Unread>
    ensures { result ≡ read_of image.now }
{
    let Some(n) = container_len(image) else {
        return Err(Unread::NoContainer);
    };
    if image.len() < n {
        return Err(Unread::NoContainer);
    }
    if image[1] / 64 == 1 {
        return message_from(image, n);
    }
    Err(Unread::NoContainer)
}
