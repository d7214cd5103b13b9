// What a recovery left: how many bytes are not zero.
ghost use Rattle.std.specs.Prelude.{◌≡◌};
ghost use Rattle.stand.specs.Left.{left_in};

use crate::bench::Memory;

#[tactic(auto, using(crate::proofs::Lefts::left_counts))]
pub fn left(memory: &Memory) -> u64
    ensures { result ≡ left_in memory.now }
{
    memory.iter().filter(|b| **b != 0).count() as u64
}
