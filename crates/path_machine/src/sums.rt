//! Assignments of the result of two numbers. The rules are asked while it is calculated, so that nothing is looked at twice.

ghost use Rattle.std.specs.Prelude.{List, IfOk, IfSome};
ghost use Rattle.cxx_hierarchy.specs.declared.records.ClassId.{ClassId};
ghost use Rattle.cxx_hierarchy.specs.Classes.{Classes};
ghost use Rattle.path_model.specs.Values.{Value as ValueOf, converted_to};
ghost use Rattle.path_heap.specs.Stands.{Means};
ghost use Rattle.path_machine.specs.invariants.NumberSteps.{IsResultOf, IsResultFor, TakesResult, PutsValue};

use crate::boxes::BodyBox;
use crate::effects::go_on;
use crate::machine::Machine;
use crate::next::Next;
use crate::scenes::scene_of;
use cxx_program::{Conversion, Converted, TypedKind, TypedRight, Variable};
use foundation::NoMemory;
use path_heap::Value;
use path_values::{Scene, held_result, to_number, value};

/// A number, converted to a number type; none where the conversion is another one.
fn converted(c: &Conversion, v: Value) -> Option<Value>
    ensures { IfSome result (λ k. (h : Classes) (classes : List ClassId) (w : ValueOf) → Means h classes v w → Means h classes k (converted_to w c.now)) }
{
    match c {
        Conversion::Number(t) => Some(to_number(*t, v)),
        Conversion::Same => Some(v),
        Conversion::Bits(_, _) | Conversion::Null | Conversion::Base(_) => None,
    }
}

/// The result of two numbers that no rule refuses, converted; none of another right side.
fn result(scene: &Scene, x: &Converted) -> Option<Value>
    ensures { IfSome result (IsResultOf scene.now x.now) }
{
    match &x.right {
        TypedRight::Arithmetic(op, t, a, b) => {
            let left = value(scene, a);
            let right = value(scene, b);
            match held_result(*op, *t, left, right) {
                Some(v) => converted(&x.conversion, v),
                None => None,
            }
        }
        _ => None,
    }
}

/// What an assignment gives to which variable, where that is such a result.
fn assigned(scene: &Scene, kind: &TypedKind) -> Option<(Variable, Value)>
    ensures { IfSome result (λ taken. IsResultFor scene.now kind.now taken.0 taken.1) }
{
    match kind {
        TypedKind::Assign(variable, x) => match result(scene, x) {
            Some(v) => Some((*variable, v)),
            None => None,
        },
        _ => None,
    }
}

/// The same of a statement of a frame.
pub(crate) fn taken_number(
    machine: &Machine,
    frame: &BodyBox,
    kind: &TypedKind,
) -> Option<(Variable, Value)>
    ensures { IfSome result (λ taken. TakesResult machine.now frame.now kind.now taken.0 taken.1) }
{
    let scene = scene_of(machine, frame);
    assigned(&scene, kind)
}

/// The frame goes on, and a variable takes a value.
///
/// Errors: want of memory.
pub(crate) fn put_value(
    machine: &mut Machine,
    frame: BodyBox,
    next: usize,
    variable: Variable,
    value: Value,
) -> Result<Next, NoMemory>
    ensures { IfOk result (PutsValue machine.old machine.new frame next variable value) }
{
    go_on(machine, frame, next)?;
    machine.assign(variable, value);
    Ok(Next::Goes)
}
