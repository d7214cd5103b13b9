// The simulated part for C: what a host that has no tile at hand uses as its bus. The part's registers are ten numbers in an array that
// the host keeps; memory and identification are lent as bytes. Any numbers are taken.
#![tactic(auto)]

ghost use Rattle.std.specs.Prelude.{◌≡◌, ◌-◌, length};
ghost use Rattle.part.specs.Part.{with_busy};
ghost use Rattle.simulated.specs.Simulated.{wrote, memory_wrote, did_read, out_read, phoned, memory_phoned, powered_up, memory_left};
ghost use Rattle.tens.specs.Tens.{flag, registers_of, tile_of};
ghost use Rattle.tile.specs.Acked.{acked};

use numbered::tile_of;
use tens::registers_of;

// GPO1, RF_MNGT, I2C_CFG, RF_MNGT_Dyn; session open, write reported; milliseconds left of the cycle; its kind, place, and size or old
// byte.
pub type Tile = [usize; 10];

// A write of the bytes `sent` to the address `dev`, whose cycle takes `ms` milliseconds, 99 at most: 1 acknowledged, 0 refused.
pub fn skp_tile_write(tile: &mut Tile, memory: &mut [u8], dev: u8, sent: &[u8], ms: u8) -> u32
    ensures value { result ≡ acked (wrote dev sent.now ms memory.old (registers_of tile.old)) }
    ensures tile_after { tile.new ≡ tile_of (wrote dev sent.now ms memory.old (registers_of tile.old)).registers }
    ensures memory_after { memory.new ≡ memory_wrote dev sent.now memory.old (registers_of tile.old) }
{
    let t = simulated::write(registers_of(tile), memory, dev, sent, ms);
    let r = t.registers;
    *tile = tile_of(r);
    t.ack as u32
}

// A read from the address `dev`, after `head`, of as many bytes as `out` has: 1 acknowledged, 0 refused.
pub fn skp_tile_read(
    tile: &mut Tile,
    identity: &[u8],
    memory: &[u8],
    dev: u8,
    head: &[u8],
    out: &mut [u8],
) -> u32
    ensures value { result ≡ acked (did_read dev head.now (length out.old) identity.now memory.now (registers_of tile.old)) }
    ensures tile_after { tile.new ≡ tile_of (did_read dev head.now (length out.old) identity.now memory.now (registers_of tile.old)).registers }
    ensures out_after { out.new ≡ out_read dev head.now identity.now memory.now (registers_of tile.old) out.old }
{
    let t = shows::read(registers_of(tile), identity, memory, dev, head, out);
    let r = t.registers;
    *tile = tile_of(r);
    t.ack as u32
}

// Nothing passes for `ms` milliseconds.
pub fn skp_tile_wait(tile: &mut Tile, ms: usize)
    ensures { tile.new ≡ tile_of (with_busy ((registers_of tile.old).busy - ms) (registers_of tile.old)) }
{
    *tile = tile_of(passing::wait(registers_of(tile), ms));
}

// A phone writes `bytes` from `at` on. With RF off, or past the memory, nothing changes.
pub fn skp_tile_phone(tile: &mut Tile, memory: &mut [u8], at: usize, bytes: &[u8])
    ensures tile_after { tile.new ≡ tile_of (phoned at (length bytes.now) memory.old (registers_of tile.old)) }
    ensures memory_after { memory.new ≡ memory_phoned at bytes.now memory.old (registers_of tile.old) }
{
    *tile = tile_of(phones::phone(registers_of(tile), memory, at, bytes));
}

// A cut, and power-up. Inside a cycle it leaves `bytes` of a row write, and the old system byte where `old` is not 0.
pub fn skp_tile_cut(tile: &mut Tile, memory: &mut [u8], bytes: &[u8], old: u8)
    ensures tile_after { tile.new ≡ tile_of (powered_up (flag old) memory.old (registers_of tile.old)) }
    ensures memory_after { memory.new ≡ memory_left bytes.now memory.old (registers_of tile.old) }
{
    *tile = tile_of(power::cut(registers_of(tile), memory, bytes, old != 0));
}
