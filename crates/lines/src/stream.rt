// Standard input by the buffer: lines come in as they come.
ghost use Rattle.std.specs.Prelude.{◌≤◌};

use cases::words::find;
use std::io::{Read, Result};

const ROOM: usize = 65536;

// The input that is there and has not been given out: the bytes from `from` to `have`, since there is no heap for a Vec.
#[derive(Clone, Copy)]
pub struct Feed {
    bytes: [u8; ROOM],
    from: usize,
    have: usize,
    ghost order: { from ≤ have },
    ghost within: { have ≤ 65536 },
}

impl Feed {
    // Nothing has been read.
    pub fn new() -> Feed {
        Feed {
            bytes: [0; ROOM],
            from: 0,
            have: 0,
        }
    }

    // The next line, without its line feed, where all of it is there.
    pub fn line(&mut self) -> Option<&[u8]> {
        let from = self.from;
        let n = find(&self.bytes[from..self.have], b'\n');
        if n == self.have - from {
            return None;
        }
        self.from = from + n + 1;
        Some(&self.bytes[from..from + n])
    }

    // Moves the part of a line that is there to the front, and reads once more after it; whether more came.
    pub fn refill<R: Read>(&mut self, reader: &mut R) -> Result<bool> {
        self.bytes.copy_within(self.from..self.have, 0);
        self.have -= self.from;
        self.from = 0;
        if self.have == ROOM {
            return Ok(false);
        }
        let got = reader.read(&mut self.bytes[self.have..])?;
        self.have += got;
        Ok(got != 0)
    }
}
