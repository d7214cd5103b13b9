// Answers cases: reads lines on standard input and writes one line for each. A case of the codec is a call with its arguments: answered
// are the call, document 01's number, its values, and the bytes of every lent buffer afterwards. An operation of a session works on
// buffers that stay from line to line: of an export are answered its name, the step that it returns, the step of `skp_tag_dirty`
// afterwards, whether the state's bytes changed, and the whole transfer and reply arrays. compare/README.md has the lines' form. Cases
// come from a program, so a number is taken as far as it is digits; a call that is not known is answered by a question mark.
#![tactic(auto)]

mod codec;
mod exports;

use crate::codec::Rooms;
use buffers::arrays::Arrays;
use buffers::names::{Export, OnArrays};
use cases::words::word;
use lines::said::Said;
use lines::stream::Feed;
use std::io::{Read, Result, Write};

// Answers a line. An operation on the arrays alone is answered by its name.
fn answer(line: &[u8], said: &mut Said, arrays: &mut Arrays, rooms: &mut Rooms) {
    let name = word(line, 0);
    if let Some(export) = Export::of(name) {
        exports::answer(export, line, said, arrays);
    } else if let Some(operation) = OnArrays::of(name) {
        arrays.apply(operation, line);
        said.text(name);
    } else {
        rooms.answer(line, said);
    }
}

// One turn for each line, and for each read.
fn run<R: Read, W: Write>(from: &mut R, to: &mut W) -> Result<()> {
    let mut feed = Feed::new();
    let mut said = Said::new();
    let mut arrays = Arrays::new();
    let mut rooms = Rooms::new();
    for _ in 0..u64::MAX {
        match feed.line() {
            Some(line) => {
                answer(line, &mut said, &mut arrays, &mut rooms);
                said.end_line(to)?;
            }
            None => {
                said.flush(to)?;
                if !feed.refill(from)? {
                    break;
                }
            }
        }
    }
    Ok(())
}

fn main(rt: HostRuntime) -> Result<()> {
    run(&mut rt.stdin(), &mut rt.stdout())
}
