// A number's line of English in a lent buffer.
#![tactic(auto)]

ghost use Rattle.std.specs.Prelude.{◌≡◌, length};
ghost use Rattle.messages.specs.Messages.{message_of, padded};

use messages::text_of;

// The message of a number, with zeros after it, and its length.
pub fn message(number: u32, text: &mut [u8; 64]) -> u32
    ensures { (result ≡ length (message_of number)) × (text.new ≡ padded 64 (message_of number)) }
{
    let m = text_of(number);
    *text = [0; 64];
    text[..m.len()].copy_from_slice(m);
    m.len() as u32
}
