// Writes the image of a label to standard output: the text that its first argument gives, for a tile whose area is 8,184 bytes.
// A label that is refused is named with its number on standard error, and nothing is written.
#![tactic(auto)]

use image::text_image;
use slices::front;
use std::env::Env;
use std::io;

fn main(rt: HostRuntime) -> io::Result<()> {
    let mut word = [0u8; 4096];
    let n = rt.arg(1, &mut word).unwrap_or(0);
    let mut tile = [0u8; 8192];
    match text_image(&mut tile, 8184, &word[..n]) {
        Ok(end) => rt.write_all(front(&tile, end)),
        Err(why) => {
            let number = u32::from(why);
            eprintln!(rt; "label: refused {number}: {why}")
        }
    }
}
