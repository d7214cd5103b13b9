// The simulated part for C: each export is the function of `tile` that has its name, with the same clauses. Both stand because a static library
// exports and no crate can use it.
#![tactic(auto)]

ghost use Rattle.std.specs.Prelude.{◌≡◌, ◌-◌, length};
ghost use Rattle.part.specs.Part.{with_busy};
ghost use Rattle.simulated.specs.Simulated.{wrote, memory_wrote, did_read, out_read, phoned, memory_phoned, powered_up, memory_left};
ghost use Rattle.tens.specs.Tens.{flag, registers_of, tile_of};
ghost use Rattle.tile.specs.Acked.{acked};

use tile::Tile;

#[unsafe(no_mangle)]
pub extern "C" fn skp_tile_write(
    tile: &mut Tile,
    memory: &mut [u8],
    dev: u8,
    sent: &[u8],
    ms: u8,
) -> u32
    ensures value { result ≡ acked (wrote dev sent.now ms memory.old (registers_of tile.old)) }
    ensures tile_after { tile.new ≡ tile_of (wrote dev sent.now ms memory.old (registers_of tile.old)).registers }
    ensures memory_after { memory.new ≡ memory_wrote dev sent.now memory.old (registers_of tile.old) }
{
    tile::skp_tile_write(tile, memory, dev, sent, ms)
}

#[unsafe(no_mangle)]
pub extern "C" fn skp_tile_read(
    tile: &mut Tile,
    identity: &[u8],
    memory: &[u8],
    dev: u8,
    head: &[u8],
    out: &mut [u8],
) -> u32
    ensures value { result ≡ acked (did_read dev head.now (length out.old) identity.now memory.now (registers_of tile.old)) }
    ensures tile_after { tile.new ≡ tile_of (did_read dev head.now (length out.old) identity.now memory.now (registers_of tile.old)).registers }
    ensures out_after { out.new ≡ out_read dev head.now identity.now memory.now (registers_of tile.old) out.old }
{
    tile::skp_tile_read(tile, identity, memory, dev, head, out)
}

#[unsafe(no_mangle)]
pub extern "C" fn skp_tile_wait(tile: &mut Tile, ms: usize)
    ensures { tile.new ≡ tile_of (with_busy ((registers_of tile.old).busy - ms) (registers_of tile.old)) }
{
    tile::skp_tile_wait(tile, ms);
}

#[unsafe(no_mangle)]
pub extern "C" fn skp_tile_phone(tile: &mut Tile, memory: &mut [u8], at: usize, bytes: &[u8])
    ensures tile_after { tile.new ≡ tile_of (phoned at (length bytes.now) memory.old (registers_of tile.old)) }
    ensures memory_after { memory.new ≡ memory_phoned at bytes.now memory.old (registers_of tile.old) }
{
    tile::skp_tile_phone(tile, memory, at, bytes);
}

#[unsafe(no_mangle)]
pub extern "C" fn skp_tile_cut(tile: &mut Tile, memory: &mut [u8], bytes: &[u8], old: u8)
    ensures tile_after { tile.new ≡ tile_of (powered_up (flag old) memory.old (registers_of tile.old)) }
    ensures memory_after { memory.new ≡ memory_left bytes.now memory.old (registers_of tile.old) }
{
    tile::skp_tile_cut(tile, memory, bytes, old);
}
