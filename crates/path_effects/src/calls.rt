//! Which function a call runs, and on which part (ISO C++03 5.2.2, 10.3).

ghost use Rattle.std.specs.Prelude.{IfOk};
ghost use Rattle.path_tables.specs.Asked.{AreAnswers};
ghost use Rattle.path_tables.specs.Worlds.{IsWorld};
ghost use Rattle.path_effects.specs.ClearSights.{IsCallRun};

use cxx_program::TypedCall;
use foundation::NoMemory;
use path_heap::{Heap, Value};
use path_tables::{Answers, World};
use path_values::{Found, Scene, dispatched, receiver};
use std::alloc::Global;

/// The function that a call runs, and its `this`: the final overrider in the view, or without dispatch the function that was
/// found.
///
/// Errors: want of memory.
pub fn call(
    alloc: Global,
    world: &World,
    heap: &Heap,
    answers: &mut Answers,
    scene: &Scene,
    call: &TypedCall,
) -> Result<Option<Found>, NoMemory>
    requires world { IsWorld world.now }
    requires answers { AreAnswers world.now.h.now answers.old }
    ensures answers { AreAnswers world.now.h.now answers.new }
    ensures is { IfOk result (IsCallRun world.now.h.now heap.now scene.now call.now) }
{
    match receiver(world, heap, scene, call) {
        Value::Pointer(n) => {
            if call.is_dispatched {
                dispatched(alloc, world, heap, answers, n, call.function)
            } else {
                Ok(Some(Found {
                    this: n,
                    function: call.function,
                }))
            }
        }
        // never met for a call that no rule refuses: its pointer is one, by `IsCallRun`
        _ => Ok(None),
    }
}
