//! The routines of a program.

ghost use Rattle.std.specs.Prelude.{◌≡◌, ◌<◌, IfOk, OnOk, ◌++◌, List, length};
ghost use Rattle.std.specs.List.{flat_map};
ghost use Rattle.cxx_program.specs.declared.program.TypedBody.{TypedBody};
ghost use Rattle.abi_sound.specs.declared.class_layout.ClassLayout.{ClassLayout};
ghost use Rattle.code_ops.specs.Setups.{setup, routine_owner};
ghost use Rattle.code_ops.specs.Routines.{routine_kind, plan_kind as plan_kind_of, plan_function as plan_function_of};
ghost use Rattle.abi_lower.specs.invariants.Numbers.{main_routines, owned_routines, plain_routines, plan_routines, class_ids, routines};
ghost use Rattle.abi_lower.specs.invariants.Codes.{routine_from, routines_from};

use abi_slots::BlockKind;
use code_ops::routines::{Course, constructor_of, destructor_of};
use cxx_hierarchy::{ClassId, Hierarchy};
use cxx_overrider::FunctionId;
use cxx_program::{Owner, TypedBody, TypedProgram};
use foundation::{NoMemory, Sequence};
use path_plan::Form;
use std::alloc::Global;

/// What becomes code of its own: `main`, a function, or a plan of a class, for a complete object or for a base (Itanium C++ ABI 5.1.4.3).
#[derive(Clone, Copy)]
pub enum Routine {
    Main,
    Function(FunctionId),
    Plan(Course, Form, ClassId),
}

/// Routines in the order of their code.
pub type RoutineList = Sequence<Routine>;

/// Whose body a routine runs.
pub fn owner(r: Routine) -> Owner
    ensures { result ≡ routine_owner (routine_from r) }
{
    match r {
        Routine::Main => Owner::Main,
        Routine::Function(f) => Owner::Function(f),
        Routine::Plan(Course::Constructs, _, c) => Owner::Constructor(c),
        Routine::Plan(Course::Destroys | Course::Deletes, _, c) => Owner::Destructor(c),
    }
}

/// The form of a function's code that a plan is.
fn plan_kind(course: Course, form: Form) -> BlockKind
    ensures { result ≡ plan_kind_of course form }
{
    match course {
        Course::Deletes => BlockKind::EndDeleting,
        Course::Constructs => match form {
            Form::InFull => BlockKind::BuildComplete,
            Form::AsBase => BlockKind::BuildBase,
        },
        Course::Destroys => match form {
            Form::InFull => BlockKind::EndComplete,
            Form::AsBase => BlockKind::EndBase,
        },
    }
}

/// The form of a function's code that a routine is.
pub fn kind(r: Routine) -> BlockKind
    ensures { result ≡ routine_kind (routine_from r) }
{
    match r {
        Routine::Main | Routine::Function(_) => BlockKind::Plain,
        Routine::Plan(course, form, _) => plan_kind(course, form),
    }
}

/// The function whose code a plan is.
pub fn plan_function(h: &Hierarchy, course: Course, c: ClassId) -> FunctionId
    requires { c.0 < length h.now }
    ensures { result ≡ plan_function_of h.now course c }
{
    match course {
        Course::Constructs => constructor_of(h, c),
        Course::Destroys | Course::Deletes => destructor_of(h, c),
    }
}

/// Puts `main` behind other routines, if there is one.
fn push_main(list: &mut RoutineList, main: &Option<TypedBody>) -> Result<(), NoMemory>
    ensures { OnOk result (routines_from list.new ≡ routines_from list.old ++ main_routines main.now) }
{
    match main {
        Some(_) => list.push(Routine::Main)?,
        None => {}
    }
    Ok(())
}

/// Puts the plans of a class behind other routines.
fn push_plans(list: &mut RoutineList, c: ClassId) -> Result<(), NoMemory>
    ensures { OnOk result (routines_from list.new ≡ routines_from list.old ++ plan_routines c) }
{
    list.push(Routine::Plan(Course::Constructs, Form::InFull, c))?;
    list.push(Routine::Plan(Course::Constructs, Form::AsBase, c))?;
    list.push(Routine::Plan(Course::Destroys, Form::InFull, c))?;
    list.push(Routine::Plan(Course::Destroys, Form::AsBase, c))?;
    list.push(Routine::Plan(Course::Deletes, Form::InFull, c))?;
    Ok(())
}

/// Puts the functions that have one of these bodies behind other routines.
fn push_functions(list: &mut RoutineList, bodies: &[TypedBody]) -> Result<(), NoMemory>
    ensures { OnOk result (routines_from list.new ≡ routines_from list.old ++ flat_map (λ (body : TypedBody). owned_routines body.owner) bodies.now) }
{
    for body in bodies {
        match body.owner {
            Owner::Function(f) => list.push(Routine::Function(f))?,
            Owner::Main | Owner::Constructor(_) | Owner::Destructor(_) => {}
        }
    }
    Ok(())
}

/// Puts the plans of all classes behind other routines.
fn push_classes(list: &mut RoutineList, h: &Hierarchy) -> Result<(), NoMemory>
    ensures { OnOk result (routines_from list.new ≡ routines_from list.old ++ flat_map plan_routines (class_ids (length h.now))) }
{
    for n in 0..h.len() {
        push_plans(list, ClassId(n))?;
    }
    Ok(())
}

/// The routines of a program that are no plans: `main` and the functions.
///
/// Errors: want of memory.
pub fn list_plain(alloc: Global, program: &TypedProgram) -> Result<RoutineList, NoMemory>
    ensures { IfOk result (λ list. routines_from list ≡ plain_routines program.now) }
{
    let mut list = Sequence::new(alloc);
    push_main(&mut list, &program.main)?;
    push_functions(&mut list, program.bodies.as_slice())?;
    Ok(list)
}

/// The routines of a program.
///
/// Errors: want of memory.
pub fn list_routines(
    alloc: Global,
    h: &Hierarchy,
    program: &TypedProgram,
) -> Result<RoutineList, NoMemory>
    ensures { IfOk result (λ list. (rows : List ClassLayout) → routines_from list ≡ routines (setup h.now rows program.now)) }
{
    let mut list = list_plain(alloc, program)?;
    push_classes(&mut list, h)?;
    Ok(list)
}
