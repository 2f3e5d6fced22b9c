//! The questions that rest on the view of a part's complete object (ISO C++03 12.7).

ghost use Rattle.std.specs.Prelude.{◌≡◌, ◌<◌, Some, IfOk, length};
ghost use Rattle.cxx_subobject.specs.Locations.{ObjectPart};
ghost use Rattle.path_model.specs.Values.{Objects, Pointer};
ghost use Rattle.cxx_hierarchy.specs.Classes.{Classes};
ghost use Rattle.cxx_overrider.specs.Functions.{is_pure};
ghost use Rattle.path_model.specs.Uses.{view_of, down_value, dynamic_value};
ghost use Rattle.path_model.specs.Rules.{is_outside, is_pure_in_view};
ghost use Rattle.path_model.specs.Effects.{conversion_to_class, overrider_by, overrider_in_view, typeid_class};
ghost use Rattle.path_tables.specs.Parts.{numbered_overrider};
ghost use Rattle.path_heap.specs.Stands.{Means};
ghost use Rattle.path_tables.specs.Asked.{AreAnswers};
ghost use Rattle.path_tables.specs.Worlds.{IsWorld};
ghost use Rattle.path_values.specs.Views.{IsPartAt, IsCallable, RunsByView};
ghost use Rattle.path_values.specs.invariants.Standing.{IsStanding, pointer_or};

use crate::standing::{Standing, number_behind, standing_of};
use cxx_hierarchy::{ClassId, Hierarchy};
use cxx_overrider::{FunctionId, pure};
use cxx_program::Conversion;
use cxx_subobject::Subobject;
use foundation::NoMemory;
use path_heap::{Heap, Value};
use path_tables::{Answers, FinalAt, World};
use std::alloc::Global;

/// A function, and the number of the part that is its `this`.
#[derive(Clone, Copy)]
pub struct Found {
    pub this: u64,
    pub function: FunctionId,
}

/// Whether a function is declared as pure (ISO C++03 10.4).
fn is_pure_function(h: &Hierarchy, f: FunctionId) -> bool
    ensures { result ≡ is_pure h.now f }
{
    if f.class.0 < h.len() {
        pure::is_pure(h, f)
    } else {
        false
    }
}

/// A pointer to the part that stands this far behind a complete object, or another value.
fn pointer_or(whole: u64, found: Option<u32>, other: Value) -> Value
    ensures { result ≡ pointer_or whole found other }
{
    match found {
        Some(n) => Value::Pointer(number_behind(whole, n)),
        None => other,
    }
}

/// The final overrider in the view of a part that stands here, if there is a view.
fn overrider_at(
    alloc: Global,
    world: &World,
    answers: &mut Answers,
    at: Standing,
    f: FunctionId,
) -> Result<Option<FinalAt>, NoMemory>
    requires world { IsWorld world.now }
    requires answers { AreAnswers world.now.h.now answers.old }
    ensures answers { AreAnswers world.now.h.now answers.new }
    ensures is { IfOk result (λ found. (s : Objects) (p : ObjectPart) → IsStanding world.now.h.now s p at → IsCallable world.now.h.now p f → found ≡ numbered_overrider world.now.h.now at.class (overrider_by world.now.h.now (view_of world.now.h.now s p) p.at f)) }
{
    match at.view {
        Some(view) => answers.final_overrider(alloc, world, at.class, view, at.part, f),
        None => Ok(None),
    }
}

/// The class that a part's complete object has at this time, if it has one: that of the view (ISO C++03 5.2.8 p2, 12.7 p4).
pub fn view_type(heap: &Heap, n: u64) -> Option<ClassId>
    ensures { (h : Classes) (s : Objects) (p : ObjectPart) → IsPartAt h heap.now s n p → result ≡ typeid_class h s p }
{
    match heap.view(n) {
        Some(view) => Some(heap.class(view)),
        None => None,
    }
}

/// Whether a part is neither the view of its complete object nor one of the view's bases.
///
/// Errors: want of memory.
pub fn is_outside(
    alloc: Global,
    world: &World,
    heap: &Heap,
    answers: &mut Answers,
    n: u64,
) -> Result<bool, NoMemory>
    requires world { IsWorld world.now }
    requires answers { AreAnswers world.now.h.now answers.old }
    ensures answers { AreAnswers world.now.h.now answers.new }
    ensures is { IfOk result (λ outside. (s : Objects) (p : ObjectPart) → IsPartAt world.now.h.now heap.now s n p → outside ≡ is_outside world.now.h.now s p) }
{
    let at = standing_of(heap, n);
    match at.view {
        Some(view) => {
            let inside = answers.is_within(alloc, world, at.class, view, at.part)?;
            Ok(!inside)
        }
        None => Ok(true),
    }
}

/// Whether the final overrider of a function of the part's class, in the view, is pure.
///
/// Errors: want of memory.
pub fn is_pure(
    alloc: Global,
    world: &World,
    heap: &Heap,
    answers: &mut Answers,
    n: u64,
    f: FunctionId,
) -> Result<bool, NoMemory>
    requires world { IsWorld world.now }
    requires answers { AreAnswers world.now.h.now answers.old }
    ensures answers { AreAnswers world.now.h.now answers.new }
    ensures is { IfOk result (λ pure. (s : Objects) (p : ObjectPart) → IsPartAt world.now.h.now heap.now s n p → IsCallable world.now.h.now p f → pure ≡ is_pure_in_view world.now.h.now s f p) }
{
    let at = standing_of(heap, n);
    match overrider_at(alloc, world, answers, at, f)? {
        Some(found) => Ok(is_pure_function(world.h, found.function)),
        None => Ok(false),
    }
}

/// The final overrider of a function of the part's class, in the view, with its `this` (ISO C++03 10.3 p2, 12.7 p3).
///
/// Errors: want of memory.
pub fn dispatched(
    alloc: Global,
    world: &World,
    heap: &Heap,
    answers: &mut Answers,
    n: u64,
    f: FunctionId,
) -> Result<Option<Found>, NoMemory>
    requires world { IsWorld world.now }
    requires answers { AreAnswers world.now.h.now answers.old }
    ensures answers { AreAnswers world.now.h.now answers.new }
    ensures is { IfOk result (λ found. (s : Objects) (p : ObjectPart) → IsPartAt world.now.h.now heap.now s n p → IsCallable world.now.h.now p f → RunsByView world.now.h.now s.classes found (overrider_in_view world.now.h.now s p f)) }
{
    let at = standing_of(heap, n);
    match overrider_at(alloc, world, answers, at, f)? {
        Some(found) => Ok(Some(Found {
            this: number_behind(at.whole, found.at),
            function: found.function,
        })),
        None => Ok(None),
    }
}

/// What a `dynamic_cast` of a pointer to the part gives (ISO C++03 5.2.7 p8, p9).
///
/// Errors: want of memory.
pub fn cast(
    alloc: Global,
    world: &World,
    heap: &Heap,
    answers: &mut Answers,
    n: u64,
    target: ClassId,
) -> Result<Value, NoMemory>
    requires world { IsWorld world.now }
    requires answers { AreAnswers world.now.h.now answers.old }
    ensures answers { AreAnswers world.now.h.now answers.new }
    ensures is { IfOk result (λ value. (s : Objects) (p : ObjectPart) → IsPartAt world.now.h.now heap.now s n p → Means world.now.h.now s.classes value (dynamic_value world.now.h.now s target (Pointer p))) }
{
    let at = standing_of(heap, n);
    match at.view {
        Some(view) => {
            let inside = answers.is_within(alloc, world, at.class, view, at.part)?;
            if !inside {
                return Ok(Value::Unset);
            }
            let found = answers.cast(alloc, world, at.class, view, at.part, target)?;
            Ok(pointer_or(at.whole, found, Value::Null))
        }
        None => Ok(Value::Unset),
    }
}

/// What a static downcast of a pointer to the part gives: the subobject of the target class whose base `i` the part is; no
/// value where there is none (ISO C++03 5.2.9 p8).
///
/// Errors: want of memory.
pub fn down(
    alloc: Global,
    world: &World,
    heap: &Heap,
    answers: &mut Answers,
    n: u64,
    target: ClassId,
    i: &Subobject,
) -> Result<Value, NoMemory>
    requires world { IsWorld world.now }
    requires answers { AreAnswers world.now.h.now answers.old }
    ensures answers { AreAnswers world.now.h.now answers.new }
    ensures is { IfOk result (λ value. (s : Objects) (p : ObjectPart) → IsPartAt world.now.h.now heap.now s n p → Means world.now.h.now s.classes value (down_value world.now.h.now s target i.now (Pointer p))) }
{
    let at = standing_of(heap, n);
    let found = answers.derived(alloc, world, at.class, at.part, target, i)?;
    Ok(pointer_or(at.whole, found, Value::Unset))
}

/// The conversion from a class to itself or to its one base of class d.
///
/// Errors: want of memory.
pub fn conversion(
    alloc: Global,
    world: &World,
    answers: &mut Answers,
    c: ClassId,
    d: ClassId,
) -> Result<Conversion, NoMemory>
    requires world { IsWorld world.now }
    requires known { c.0 < length world.now.h.now }
    requires answers { AreAnswers world.now.h.now answers.old }
    ensures answers { AreAnswers world.now.h.now answers.new }
    ensures is { IfOk result (λ conversion. conversion ≡ conversion_to_class world.now.h.now c d) }
{
    if c.0 == d.0 {
        return Ok(Conversion::Same);
    }
    match answers.first_base(alloc, world, c, d)? {
        Some(i) => Ok(Conversion::Base(i)),
        None => Ok(Conversion::Same),
    }
}
