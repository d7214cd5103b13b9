// The number that a caller gets for what a call answers, and the value beside it.
#![tactic(auto)]

ghost use Rattle.std.specs.Prelude.{◌≡◌};
ghost use Rattle.protocol.specs.Answer.{answer_number, answer_value};

use protocol::answer::{Answer, TagError};

// The number of an answer: 0, or the refusal's. By itself: `answer_number` is what C is promised.
pub fn number(a: Result<Answer, TagError>) -> u8
    ensures { result ≡ answer_number a }
{
    match a {
        Ok(_) => 0,
        Err(e) => u8::from(e),
    }
}

// The value beside it: 1 where a phone wrote, else 0.
pub fn value(a: Result<Answer, TagError>) -> u8
    ensures { result ≡ answer_value a }
{
    match a {
        Ok(Answer::Wrote(true)) => 1,
        Ok(Answer::Wrote(false) | Answer::Done) => 0,
        Err(_) => 0,
    }
}
