// The simulated part is read: it shows its memory, its registers and its identification.
#![tactic(auto)]

ghost use Rattle.std.specs.Prelude.{◌≡◌, length};
ghost use Rattle.part.specs.Looks.{shown, bit};
ghost use Rattle.simulated.specs.Simulated.{both, Fills, did_read, out_read};

use looks::look_of;
use part::look::Look;
use part::registers::Registers;
use registers::byte_of;
use seeing::{answers, seen};
use simulated::{Answer, refused};
use slices::{copy_to, put};

// A bit of a register.
fn bit_of(b: bool, v: u8) -> u8
    ensures { result ≡ bit b v }
{
    if b { v } else { 0 }
}

// The bytes that are read, into a buffer that they fill.
fn show(l: Look, identity: &[u8], memory: &[u8], r: Registers, out: &mut [u8]) -> usize
    requires { Fills l (length out.old) (length identity.now) (length memory.now) }
    ensures { out.new ≡ shown l (length out.old) identity.now memory.now r }
{
    match l {
        Look::Memory(at) => {
            let end = at + out.len();
            copy_to(out, 0, &memory[at..end])
        }
        Look::Dynamic => put(out, 0, r.rf),
        Look::Session => put(out, 0, bit_of(r.session, 0x01)),
        Look::Status => put(out, 0, bit_of(r.reported, 0x80)),
        Look::Byte(at) => put(out, 0, byte_of(r, at)),
        Look::Identity => copy_to(out, 0, identity),
        Look::Unknown => 0,
    }
}

// Whether both are of the part's size.
fn whole(memory: &[u8], identity: &[u8]) -> bool
    ensures { result ≡ both memory.now identity.now }
{
    (memory.len() == 8192) & (identity.len() == 12)
}

// A read from the address `dev`, after `head`, of as many bytes as `out` has.
pub fn read(
    r: Registers,
    identity: &[u8],
    memory: &[u8],
    dev: u8,
    head: &[u8],
    out: &mut [u8],
) -> Answer
    ensures value { result ≡ did_read dev head.now (length out.old) identity.now memory.now r }
    ensures out_after { out.new ≡ out_read dev head.now identity.now memory.now r out.old }
{
    if !whole(memory, identity) {
        return refused(r);
    }
    let l = look_of(dev, head, out.len());
    if (r.busy == 0) & answers(l) {
        show(l, identity, memory, r, out);
        Answer {
            ack: true,
            registers: seen(l, r),
        }
    } else {
        refused(r)
    }
}
