ghost use Rattle.std.specs.Prelude.{◌≡◌};
ghost use Rattle.machine.specs.declared.phase.Phase.TheVariants.{Halted};

use machine::Machine;

// A machine that has halted and was closed. It counts as halted and keeps every value.
#[derive(Drop)]
pub struct Closed<R> {
    pub(crate) machine: Machine<R>,
    ghost halted: { machine.parts.phase ≡ Halted },
}
