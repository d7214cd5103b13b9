// The answers' lines, piece by piece, into a buffer. What does not fit is left out: the line is then another than it should be,
// and the comparison shows it.
ghost use Rattle.std.specs.Prelude.{◌≤◌};

use cases::words::word;
use std::fmt::Write;
use std::{fmt, io};

const ROOM: usize = 262144;

const HEX: [u8; 16] = *b"0123456789abcdef";

// What has been said and not written out yet: the first `len` bytes, since there is no heap for a Vec.
#[derive(Drop)]
pub struct Said {
    bytes: [u8; ROOM],
    len: usize,
    ghost within: { len ≤ 262144 },
}

impl Said {
    pub fn new() -> Said {
        Said {
            bytes: [0; ROOM],
            len: 0,
        }
    }

    pub fn text(&mut self, s: &[u8]) {
        if s.len() <= ROOM - self.len {
            let end = self.len + s.len();
            self.bytes[self.len..end].copy_from_slice(s);
            self.len = end;
        }
    }

    // How an answer begins: the call's name, the first word of its line, and the refusal's number, 0 for none.
    pub fn head(&mut self, line: &[u8], refusal: usize) {
        self.text(word(line, 0));
        self.number(refusal);
    }

    pub fn number(&mut self, n: usize) {
        let _ = write!(self, " {n}");
    }

    pub fn bytes(&mut self, s: &[u8]) {
        self.text(b" ");
        self.bare_bytes(s);
    }

    // Bytes: a dash for none, hex up to 40, else their number and digest.
    pub fn bare_bytes(&mut self, s: &[u8]) {
        match s.len() {
            0 => self.text(b"-"),
            1..=40 => self.pairs(s),
            n => {
                let h = digest(s);
                let _ = write!(self, "{n}:{h}");
            }
        }
    }

    fn pairs(&mut self, s: &[u8]) {
        for b in s {
            self.text(&[HEX[usize::from(b / 16)], HEX[usize::from(b % 16)]]);
        }
    }

    // The end of a line; what has been said is written out once the buffer is half full.
    pub fn end_line<W: io::Write>(&mut self, to: &mut W) -> io::Result<()> {
        self.text(b"\n");
        if self.len < ROOM / 2 {
            return Ok(());
        }
        self.flush(to)
    }

    // Writes out what has been said.
    pub fn flush<W: io::Write>(&mut self, to: &mut W) -> io::Result<()> {
        to.write_all(&self.bytes[..self.len])?;
        self.len = 0;
        Ok(())
    }
}

impl fmt::Write for Said {
    fn write_str(&mut self, s: &str) -> fmt::Result {
        self.text(s.as_bytes());
        Ok(())
    }
}

// Every byte counts, and its place: h * 524287 + b + 1, modulo the largest prime below 2^44.
pub fn digest(s: &[u8]) -> usize {
    let mut h: usize = 0;
    for b in s {
        h = (h * 524287 + usize::from(*b) + 1) % 17592186044399;
    }
    h
}
