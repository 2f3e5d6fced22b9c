//! How a result comes to the variable that waits for it.

ghost use Rattle.path_tables.specs.Worlds.{IsWorld};
ghost use Rattle.path_machine.specs.Frames.{target_of_code};
ghost use Rattle.path_machine.specs.invariants.StatementSteps.{GivesValue};

use crate::frames::Target;
use crate::machine::Machine;
use path_heap::Value;
use path_tables::World;
use path_values::convert;

/// A value comes to the variable that waits for it, converted to its type; where none waits it is dropped.
pub(crate) fn give(world: &World, machine: &mut Machine, value: Value, target: &Option<Target>)
    requires world { IsWorld world.now }
    ensures { GivesValue world.now.h.now machine.old machine.new value (target_of_code target.now) }
{
    if let Some(target) = target {
        let converted = convert(world, &machine.heap, value, &target.conversion);
        machine.assign(target.variable, converted);
    }
}
