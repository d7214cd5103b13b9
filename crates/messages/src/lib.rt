// What document 01's numbers mean, in one line of English each: the definitions, and a number's line.
#![tactic(auto)]

ghost use Rattle.std.specs.Prelude.{◌≡◌, ◌≤◌, length};
ghost use Rattle.messages.specs.Messages.{message_of};

// The message of a number: of 0 to 5, 11 to 14, 21 to 26, 31 to 35 and 255, and an empty one for every other.
#[tactic(auto, unfolding(crate::specs::Messages::message_of, crate::specs::Messages::messages, uri::specs::Prefixes::ascii))]
pub fn text_of(number: u32) -> &'static [u8]
    ensures value { result.now ≡ message_of number }
    ensures upper_bound { length result.now ≤ 30 }
{
    match number {
        0 => b"done",
        1 => b"the type name is too long",
        2 => b"the buffer is too small",
        3 => b"the record is too long",
        4 => b"the area is too big",
        5 => b"the text is not UTF-8",
        11 => b"no NFC container",
        12 => b"no message on the tag",
        13 => b"a length runs past the bytes",
        14 => b"a record in several pieces",
        21 => b"the tag did not answer",
        22 => b"not the expected tag",
        23 => b"the tag stayed busy",
        24 => b"the tag refused setup",
        25 => b"NFC would not switch",
        26 => b"the tag did not take the write",
        31 => b"no call is open",
        32 => b"a call is still open",
        33 => b"a buffer of the wrong length",
        34 => b"no session in the state bytes",
        35 => b"the input is too long",
        255 => b"no more records",
        _ => b"",
    }
}
