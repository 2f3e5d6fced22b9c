//! How the result of the function that runs becomes one of the declaration that was found.

ghost use Rattle.std.specs.Prelude.{◌≡◌, ◌<◌, IfOk, IfSome, length};
ghost use Rattle.cxx_overrider.specs.Functions.{return_of, pointee};
ghost use Rattle.path_model.specs.Effects.{result_conversion};
ghost use Rattle.path_tables.specs.Asked.{AreAnswers};
ghost use Rattle.path_tables.specs.Worlds.{IsWorld};

use cxx_hierarchy::{ClassId, Hierarchy, ReturnType, ValueType};
use cxx_overrider::FunctionId;
use cxx_overrider::signatures::declaration;
use cxx_program::Conversion;
use foundation::NoMemory;
use path_tables::{Answers, World};
use path_values::conversion;
use std::alloc::Global;

/// The class to which a function returns a pointer.
fn pointee(h: &Hierarchy, f: FunctionId) -> Option<ClassId>
    ensures class { result ≡ pointee (return_of h.now f) }
    ensures known { IfSome result (λ c. c.0 < length h.now) }
{
    h.keeps();
    if f.class.0 >= h.len() {
        return None;
    }
    match declaration(h, f) {
        None => None,
        Some(function) => match &function.ret {
            ReturnType::Void => None,
            ReturnType::Value(value) => match value {
                ValueType::Number(_) => None,
                ValueType::Pointer(class) => Some(*class),
            },
        },
    }
}

/// The conversion of the result of the function that runs to that of the function that was found: only pointers may differ
/// (ISO C++03 10.3 p5).
///
/// Errors: want of memory.
pub fn found_conversion(
    alloc: Global,
    world: &World,
    answers: &mut Answers,
    own: FunctionId,
    found: FunctionId,
) -> Result<Conversion, NoMemory>
    requires world { IsWorld world.now }
    requires answers { AreAnswers world.now.h.now answers.old }
    ensures answers { AreAnswers world.now.h.now answers.new }
    ensures is { IfOk result (λ conversion. conversion ≡ result_conversion world.now.h.now (return_of world.now.h.now own) (return_of world.now.h.now found)) }
{
    match (pointee(world.h, own), pointee(world.h, found)) {
        (Some(c), Some(d)) => conversion(alloc, world, answers, c, d),
        _ => Ok(Conversion::Same),
    }
}
