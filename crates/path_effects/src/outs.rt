//! What the statements that print tell, and what calls and events tell.

ghost use Rattle.std.specs.Prelude.{◌≡◌, Option, None, IfOk, ◌∷◌, ◌++◌, [], option_map};
ghost use Rattle.path_plan.specs.Places.{part};
ghost use Rattle.cxx_hierarchy.specs.Classes.{Classes};
ghost use Rattle.cxx_subobject.specs.declared.Subobject.{Subobject};
ghost use Rattle.cxx_subobject.specs.Locations.{ObjectPart};
ghost use Rattle.path_model.specs.declared.outs.Out.TheVariants.{Call, Built, Ending};
ghost use Rattle.path_model.specs.Values.{Value as ValueOf, Objects};
ghost use Rattle.path_model.specs.Outs.{location_of};
ghost use Rattle.path_model.specs.Uses.{Reads, Guards, Views, arrow};
ghost use Rattle.path_model.specs.Rules.{refused};
ghost use Rattle.path_model.specs.Steps.{class_of_part};
ghost use Rattle.path_model.specs.Effects.{value_out, part_out, view_out, class_out, type_out, dump_out};
ghost use Rattle.path_heap.specs.Points.{Points, PointsView, StandsForPart};
ghost use Rattle.path_heap.specs.Stands.{HeapStands, Means};
ghost use Rattle.path_tables.specs.Worlds.{IsWorld};

use cxx_hierarchy::ClassId;
use foundation::NoMemory;
use path_heap::{Heap, NumberedPart, Value};
use path_model::Out;
use path_places::{dump, location};
use path_tables::World;
use path_values::{Found, view_type};
use std::alloc::Global;

/// What `print` of a value tells; none where it is not set.
///
/// Errors: want of memory.
pub fn value_told(
    alloc: Global,
    world: &World,
    heap: &Heap,
    v: Value,
) -> Result<Option<Out>, NoMemory>
    requires world { IsWorld world.now }
    ensures { IfOk result (λ out. (s : Objects) (w : ValueOf) → HeapStands world.now.h.now heap.now s → Means world.now.h.now s.classes v w → out ≡ value_out s w) }
{
    match v {
        Value::Unset => Ok(None),
        Value::Number(z) => Ok(Some(Out::Number(z))),
        Value::Null => Ok(Some(Out::Pointer(None))),
        Value::Pointer(n) => Ok(Some(Out::Pointer(Some(location(alloc, world, heap, n)?)))),
    }
}

/// What is told of a pointer to a part that may be there.
fn part_told(
    alloc: Global,
    world: &World,
    heap: &Heap,
    n: Option<u64>,
) -> Result<Option<Out>, NoMemory>
    requires world { IsWorld world.now }
    ensures { IfOk result (λ out. (s : Objects) (p : ObjectPart) (x : Option Subobject) → HeapStands world.now.h.now heap.now s → PointsView world.now.h.now s.classes p n x → out ≡ part_out s (option_map (part p.object p.owner) x)) }
{
    match n {
        None => Ok(None),
        Some(n) => Ok(Some(Out::Pointer(Some(location(alloc, world, heap, n)?)))),
    }
}

/// What `print(dynamic_cast<void*>(pointer))` tells: the whole of the view (ISO C++03 5.2.7 p7).
///
/// Errors: want of memory.
pub fn view_told(
    alloc: Global,
    world: &World,
    heap: &Heap,
    v: Value,
) -> Result<Option<Out>, NoMemory>
    requires world { IsWorld world.now }
    ensures { IfOk result (λ out. (s : Objects) (w : ValueOf) → HeapStands world.now.h.now heap.now s → Means world.now.h.now s.classes v w → refused world.now.h.now s (Reads w ∷ Guards w ∷ Views w ∷ []) ≡ None → out ≡ view_out world.now.h.now s w) }
{
    match v {
        Value::Unset | Value::Number(_) => Ok(None),
        Value::Null => Ok(Some(Out::Pointer(None))),
        Value::Pointer(n) => part_told(alloc, world, heap, heap.view(n)),
    }
}

/// What `print(typeid(*pointer))` tells: the class of the view (ISO C++03 5.2.8).
pub fn type_told(heap: &Heap, v: Value) -> Option<Out>
    ensures { (h : Classes) (s : Objects) (w : ValueOf) → HeapStands h heap.now s → Means h s.classes v w → refused h s (arrow w ++ Views w ∷ []) ≡ None → result ≡ type_out h s w }
{
    match v {
        Value::Pointer(n) => class_told(view_type(heap, n)),
        _ => None,
    }
}

/// What is told of a class that may be there.
fn class_told(c: Option<ClassId>) -> Option<Out>
    ensures { result ≡ class_out c }
{
    match c {
        Some(c) => Some(Out::TypeName(c)),
        None => None,
    }
}

/// What `dump` tells: the whole heap object of the part.
///
/// Errors: want of memory.
pub fn dump_told(
    alloc: Global,
    world: &World,
    heap: &Heap,
    v: Value,
) -> Result<Option<Out>, NoMemory>
    requires world { IsWorld world.now }
    ensures { IfOk result (λ out. (s : Objects) (w : ValueOf) → HeapStands world.now.h.now heap.now s → Means world.now.h.now s.classes v w → out ≡ dump_out world.now.h.now s w) }
{
    match v {
        Value::Pointer(n) => Ok(Some(dump(alloc, world, heap, n)?)),
        _ => Ok(None),
    }
}

/// What a call tells: the function that runs, and its `this`.
///
/// Errors: want of memory.
pub fn call_told(alloc: Global, world: &World, heap: &Heap, found: Found) -> Result<Out, NoMemory>
    requires world { IsWorld world.now }
    ensures { IfOk result (λ out. (s : Objects) (p : ObjectPart) → HeapStands world.now.h.now heap.now s → Points world.now.h.now s.classes found.this p → out ≡ Call found.function (location_of s p)) }
{
    Ok(Out::Call(found.function, location(alloc, world, heap, found.this)?))
}

/// What is told where the construction of a part is done.
///
/// Errors: want of memory.
pub fn built_told(
    alloc: Global,
    world: &World,
    heap: &Heap,
    part: NumberedPart,
) -> Result<Out, NoMemory>
    requires world { IsWorld world.now }
    ensures { IfOk result (λ out. (s : Objects) (p : ObjectPart) → HeapStands world.now.h.now heap.now s → StandsForPart world.now.h.now s.classes part p → out ≡ Built (class_of_part p) (location_of s p)) }
{
    Ok(Out::Built(part.class, location(alloc, world, heap, part.number)?))
}

/// What is told where the destruction of a part begins.
///
/// Errors: want of memory.
pub fn ending_told(
    alloc: Global,
    world: &World,
    heap: &Heap,
    part: NumberedPart,
) -> Result<Out, NoMemory>
    requires world { IsWorld world.now }
    ensures { IfOk result (λ out. (s : Objects) (p : ObjectPart) → HeapStands world.now.h.now heap.now s → StandsForPart world.now.h.now s.classes part p → out ≡ Ending (class_of_part p) (location_of s p)) }
{
    Ok(Out::Ending(part.class, location(alloc, world, heap, part.number)?))
}
