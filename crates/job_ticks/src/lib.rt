// The ticks of an operation, by a table with a number for each.
#![tactic(auto, unfolding(spec_simulate::specs::Ticks::ticks_for, spec_simulate::specs::Ticks::number))]

ghost use Rattle.std.specs.Prelude.{◌≡◌};
ghost use Rattle.spec_simulate.specs.Ticks.{ticks_for};
ghost use Rattle.operations.specs.Named.{named};

use operations::Operation;

pub fn ticks_for(ticks: &[u32], operation: Operation) -> u32
    ensures { result ≡ ticks_for ticks.now (named operation) }
{
    memory::get(ticks, operation as usize)
}
