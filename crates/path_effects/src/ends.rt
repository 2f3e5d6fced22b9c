//! What `delete` ends (ISO C++03 5.3.5).

ghost use Rattle.std.specs.Prelude.{◌≡◌, Option, None};
ghost use Rattle.cxx_hierarchy.specs.declared.records.ClassId.{ClassId};
ghost use Rattle.cxx_hierarchy.specs.Classes.{Classes};
ghost use Rattle.cxx_program.specs.declared.statement.TypedKind.TheVariants.{Delete};
ghost use Rattle.cxx_program.specs.Typed.{Scope, IsTyped};
ghost use Rattle.path_model.specs.Values.{Sight, value_of_operand};
ghost use Rattle.path_model.specs.Uses.{Wanted};
ghost use Rattle.path_model.specs.Rules.{statement_refusal};
ghost use Rattle.path_values.specs.Scenes.{SceneStands};
ghost use Rattle.path_values.specs.Given.{HasTypesOfScope};
ghost use Rattle.path_effects.specs.Ends.{Ends};

use cxx_program::TypedOperand;
use path_heap::{Heap, NumberedPart, Value, whole_at};
use path_values::{Scene, value};

/// The whole of the heap object that `delete` of an operand ends; none where it is null.
pub fn deleted(heap: &Heap, scene: &Scene, x: &TypedOperand) -> Option<NumberedPart>
    ensures { (h : Classes) (e : Scope) (s : Sight) (w : Wanted) (c : ClassId) → SceneStands h heap.now scene.now s → HasTypesOfScope h e s → IsTyped h e (Delete x.now c) → statement_refusal h s w (Delete x.now c) ≡ None → Ends h s.objects.classes result (value_of_operand s x.now) }
{
    match value(scene, x) {
        Value::Pointer(n) => Some(whole_at(heap.heap_object(n), heap.object_class(n))),
        _ => None,
    }
}
