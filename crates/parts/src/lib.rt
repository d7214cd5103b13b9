// Writes the parts of an image into a lent buffer: container, message head, record head.
// Whoever calls has judged that they fit; every byte after the place that is returned keeps what it was.
#![tactic(auto)]

ghost use Rattle.std.specs.Prelude.{◌≡◌, true, false, ◌+◌, ◌≤◌, ◌<◌, ◌^◌, length, leb};
ghost use Rattle.slices.specs.Bytes.{Wrote};
ghost use Rattle.layout.specs.Lengths.{record_len};
ghost use Rattle.layout.specs.Container.{container};
ghost use Rattle.layout.specs.Block.{message_head};
ghost use Rattle.layout.specs.Record.{record_head};

use lengths::head_len;
use numerals::put_be;
use slices::{copy_to, put};

// The eight bytes before the first block.
pub fn put_container(out: &mut [u8], area: usize) -> usize
    requires { 8 ≤ length out.old }
    ensures { Wrote out.old 0 (container area) out.new result }
{
    let at = copy_to(out, 0, b"\xE2\x40\x00\x01\x00\x00");
    put_be::<2>(out, at, area / 8)
}

// Type and length of the block that holds a message of `n` bytes.
pub fn put_message_head(out: &mut [u8], at: usize, n: usize) -> usize
    requires { at + length (message_head n) ≤ length out.old }
    ensures { Wrote out.old at (message_head n) out.new result }
{
    if n < 255 {
        let a = put(out, at, 0x03);
        return put(out, a, (n % 256) as u8);
    }
    let a = copy_to(out, at, b"\x03\xFF");
    put_be::<2>(out, a, n)
}

// Header, type length and payload length of the one record of a message.
pub fn put_record_head(out: &mut [u8], at: usize, format: u8, kind_len: u8, payload: usize) -> usize
    requires { (format < 8) × (at + length (record_head true true (leb payload 255) false format kind_len payload 0) ≤ length out.old) }
    ensures { Wrote out.old at (record_head true true (leb payload 255) false format kind_len payload 0) out.new result }
{
    if payload <= 255 {
        let a = put(out, at, 0xD0 + format);
        let b = put(out, a, kind_len);
        return put(out, b, (payload % 256) as u8);
    }
    let a = put(out, at, 0xC0 + format);
    let b = put(out, a, kind_len);
    put_be::<4>(out, b, payload)
}

// The record's length, where it fits 64 bits.
pub fn record_len(kind_len: usize, payload: usize) -> usize
    requires { record_len kind_len payload < 2 ^ 64 }
    ensures { result ≡ record_len kind_len payload }
{
    head_len(payload) + kind_len + payload
}
