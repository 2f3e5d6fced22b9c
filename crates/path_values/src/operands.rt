//! The values of operands.

ghost use Rattle.std.specs.Prelude.{◌≡◌, List, slice_get};
ghost use Rattle.cxx_hierarchy.specs.declared.records.ClassId.{ClassId};
ghost use Rattle.cxx_hierarchy.specs.Classes.{Classes};
ghost use Rattle.path_model.specs.Values.{Sight, variable_value, value_of_operand};
ghost use Rattle.path_model.specs.Steps.{constant};
ghost use Rattle.path_heap.specs.declared.heap.Heap.{Heap};
ghost use Rattle.path_heap.specs.Stands.{Means};
ghost use Rattle.path_heap.specs.invariants.Columns.{value_or_unset};
ghost use Rattle.path_values.specs.Scenes.{SceneStands};

use crate::scene::Scene;
use cxx_program::{TypedOperand, Variable};
use path_heap::Value;

/// The value at a place; Unset past the end.
fn value_at(values: &[Value], n: usize) -> Value
    ensures { result ≡ value_or_unset (slice_get values.now n) }
{
    match values.get(n) {
        Some(value) => *value,
        None => Value::Unset,
    }
}

/// The value of a variable.
fn variable_value(scene: &Scene, x: &Variable) -> Value
    ensures { (h : Classes) (heap : Heap) (s : Sight) → SceneStands h heap scene.now s → Means h s.objects.classes result (variable_value s x.now) }
{
    match x {
        Variable::Global(n) => value_at(scene.globals, *n),
        Variable::Local(n) => value_at(scene.locals, *n),
    }
}

/// The value of an operand.
pub fn value(scene: &Scene, x: &TypedOperand) -> Value
    ensures { (h : Classes) (heap : Heap) (s : Sight) → SceneStands h heap scene.now s → Means h s.objects.classes result (value_of_operand s x.now) }
{
    match x {
        TypedOperand::Variable(x) => variable_value(scene, x),
        TypedOperand::This => scene.this,
        TypedOperand::Number(z) => Value::Number(*z as i128),
    }
}

/// The value of an operand that is a number, as those of an initializer are; of another one none.
pub fn constant(x: &TypedOperand) -> Value
    ensures { (h : Classes) (classes : List ClassId) → Means h classes result (constant x.now) }
{
    match x {
        TypedOperand::Variable(_) | TypedOperand::This => Value::Unset,
        TypedOperand::Number(z) => Value::Number(*z as i128),
    }
}
