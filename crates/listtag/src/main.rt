// Lists the records of the image on standard input: a line for each, then `ok` and their number, or `refused` and document 01's number.
// Standard output has these lines and nothing else; a read or a write that fails is said on standard error.
#![tactic(auto)]

use listing::ROOM;
use slices::front;
use std::io::{Read, Result};

// Reads the input to its end, or until `image` is full, and gives how many bytes it had. How far a turn goes is the reader's to say, so no
// range counts the turns.
fn read_image<R: Read>(input: &mut R, image: &mut [u8]) -> Result<usize> {
    let mut have = 0;
    while have < image.len() {
        let n = input.read(&mut image[have..])?;
        if n == 0 {
            break;
        }
        have += n;
    }
    Ok(have)
}

// One byte more than an image may have is read, so that a longer one is seen to be too long.
fn main(rt: HostRuntime) -> Result<()> {
    let mut image = [0u8; 8_193];
    let Ok(n) = read_image(&mut rt.stdin(), &mut image) else {
        return eprintln!(rt; "listtag: standard input could not be read");
    };
    let mut out = [0u8; ROOM];
    let end = listing::list(&mut out, front(&image, n));
    if rt.write_all(front(&out, end)).is_err() {
        return eprintln!(rt; "listtag: standard output took not all of the listing");
    }
    Ok(())
}
