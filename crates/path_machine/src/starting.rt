//! The start of a run.

ghost use Rattle.std.specs.Prelude.{◌≡◌, ℕ, Some, IfOk, map, replicate};
ghost use Rattle.cxx_hierarchy.specs.declared.records.ClassId.{ClassId};
ghost use Rattle.cxx_program.specs.Typed.{IsTypedProgram};
ghost use Rattle.cxx_hierarchy.specs.Classes.{Classes};
ghost use Rattle.cxx_hierarchy.specs.Hierarchies.{IsHierarchy};
ghost use Rattle.path_heap.specs.declared.state.Value.TheVariants.{Unset};
ghost use Rattle.path_model.specs.Runs.{start};
ghost use Rattle.path_machine.specs.Machines.{MachineStands};
ghost use Rattle.path_machine.specs.invariants.Starts.{start_code};

use crate::boxes::BodyBox;
use crate::frames::{BodyFrame, Frame};
use crate::machine::Machine;
use cxx_hierarchy::{ClassId, ValueType};
use cxx_program::{Conversion, TypedBody, TypedProgram};
use foundation::NoMemory;
use path_heap::{Heap, Value};
use std::alloc::Global;

/// The value with which a global starts: 0 or null (ISO C++03 3.6.2).
fn first_value(ty: &ValueType<ClassId>) -> Value
    ensures { result ≡ start_code ty.now }
{
    match ty {
        ValueType::Number(_) => Value::Number(0),
        ValueType::Pointer(_) => Value::Null,
    }
}

/// The values with which the globals start.
fn first_values(alloc: Global, types: &[ValueType<ClassId>]) -> Result<Vec<Value>, NoMemory>
    ensures { IfOk result (λ values. values.items ≡ map start_code types.now) }
{
    let mut values = Vec::new(alloc);
    for ty in types {
        values.push(first_value(ty))?;
    }
    Ok(values)
}

/// As many values that are not set.
fn unset_values(alloc: Global, count: usize) -> Result<Vec<Value>, NoMemory>
    ensures { IfOk result (λ values. values.items ≡ replicate count Unset) }
{
    Ok(vec![in alloc; Value::Unset; count]?)
}

/// The machine at the first statement of `main`, with no heap object.
///
/// Errors: want of memory.
pub(crate) fn started(
    alloc: Global,
    program: &TypedProgram,
    main: &TypedBody,
) -> Result<Machine, NoMemory>
    ensures { IfOk result (λ machine. (h : Classes) (sizes : ClassId → ℕ) → IsHierarchy h → IsTypedProgram h program.now → program.now.main ≡ Some main.now → MachineStands h sizes program.now machine (start program.now)) }
{
    let globals = first_values(alloc, program.globals.as_slice())?;
    let locals = unset_values(alloc, main.locals.len())?;
    let frame = BodyFrame {
        owner: main.owner,
        this: Value::Unset,
        locals,
        next: 0,
        found: Conversion::Same,
        target: None,
        depth: 0,
    };
    let boxed = BodyBox::new(alloc, frame)?;
    Ok(Machine {
        heap: Heap::new(alloc),
        globals,
        top: Some(Frame::Body(boxed)),
        below: Vec::new(alloc),
        bytes: 0,
    })
}
