//! The machine, and what changes one part of it.

ghost use Rattle.std.specs.Prelude.{◌≡◌, ◌≤◌, ◌<◌, ◌+◌, ℕ, false, nat_lt, IfOk, length};
ghost use Rattle.cxx_hierarchy.specs.declared.records.ClassId.{ClassId};
ghost use Rattle.cxx_hierarchy.specs.Classes.{Classes};
ghost use Rattle.cxx_program.specs.declared.program.TypedProgram.{TypedProgram};
ghost use Rattle.path_model.specs.Values.{Value as ValueOf};
ghost use Rattle.path_model.specs.States.{ProgramState, assigned, with_frames, with_objects, with_local_in};
ghost use Rattle.path_plan.specs.Whole.{whole_part};
ghost use Rattle.path_numbers.specs.Numbers.{AreClassNumbers};
ghost use Rattle.path_model.specs.Effects.{with_new_object};
ghost use Rattle.path_model.specs.Runs.{open_count, size_in_heap, heap_total, most_heap_bytes};
ghost use Rattle.path_heap.specs.Points.{Points};
ghost use Rattle.path_heap.specs.Rooms.{most_objects, HasFewParts};
ghost use Rattle.path_heap.specs.Stands.{Means};
ghost use Rattle.path_machine.specs.Machines.{MachineStands, PushesFrame};
ghost use Rattle.path_machine.specs.invariants.Changes.{Pops};

use crate::frames::Frame;
use crate::heap_bytes::rounded;
use crate::lists::set;
use cxx_hierarchy::ClassId;
use cxx_program::Variable;
use foundation::NoMemory;
use path_heap::{Heap, Value};
use path_numbers::Numbers;

/// The bytes that all heap objects together may take: 64 MiB.
pub const MOST_HEAP_BYTES: u64 = 67108864;

/// The heap, the globals, the frames, and the bytes of all heap objects made so far.
#[derive(Drop)]
pub struct Machine {
    pub heap: Heap,
    pub globals: Vec<Value>,
    /// The innermost frame; none where the run has ended.
    pub top: Option<Frame>,
    /// The frames below it, the innermost last.
    pub below: Vec<Frame>,
    pub bytes: u64,
}

impl Machine {
    /// How many calls, `new` and `delete` are open.
    pub fn depth(&self) -> u32
        ensures { (h : Classes) (sizes : ClassId → ℕ) (program : TypedProgram) (s : ProgramState) → MachineStands h sizes program self.now s → result ≡ open_count s.frames }
    {
        match &self.top {
            Some(frame) => frame.depth(),
            None => 0,
        }
    }

    /// Puts a frame on top, which counts what is open with it.
    ///
    /// Errors: want of memory. The machine is then of no use.
    pub fn push(&mut self, frame: Frame) -> Result<(), NoMemory>
        ensures { IfOk result (λ _. PushesFrame self.old self.new frame) }
    {
        if let Some(top) = self.top.replace(frame) {
            self.below.push(top)?;
        }
        Ok(())
    }

    /// Takes the frame on top, if there is one.
    pub fn pop(&mut self) -> Option<Frame>
        ensures pops { (h : Classes) (sizes : ClassId → ℕ) (program : TypedProgram) (s : ProgramState) → MachineStands h sizes program self.old s → Pops h sizes program self.new s result s.frames }
        ensures heap { self.new.heap ≡ self.old.heap }
    {
        let top = self.top.take();
        self.top = self.below.pop();
        top
    }

    /// A local of the body on top takes a value.
    fn set_local(&mut self, n: usize, value: Value)
        ensures { (h : Classes) (sizes : ClassId → ℕ) (program : TypedProgram) (s : ProgramState) (v : ValueOf) → MachineStands h sizes program self.old s → Means h s.objects.classes value v → MachineStands h sizes program self.new (with_frames s (with_local_in s.frames n v)) }
    {
        if let Some(Frame::Body(frame)) = &mut self.top {
            frame.put_local(n, value);
        }
    }

    /// A variable takes a value: a global, or a local of the body on top.
    pub fn assign(&mut self, variable: Variable, value: Value)
        ensures { (h : Classes) (sizes : ClassId → ℕ) (program : TypedProgram) (s : ProgramState) (v : ValueOf) → MachineStands h sizes program self.old s → Means h s.objects.classes value v → MachineStands h sizes program self.new (assigned s variable v) }
    {
        match variable {
            Variable::Global(n) => set(&mut self.globals, n, value),
            Variable::Local(n) => self.set_local(n, value),
        }
    }

    /// Whether one more object of a size, in bytes, is more than the heap holds (64 MiB).
    pub fn is_full(&self, size: u32) -> bool
        ensures is { (h : Classes) (sizes : ClassId → ℕ) (program : TypedProgram) (s : ProgramState) → MachineStands h sizes program self.now s → result ≡ nat_lt most_heap_bytes (heap_total sizes s.objects.classes + size_in_heap size) }
        ensures room { result ≡ false → self.now.bytes + size_in_heap size ≤ most_heap_bytes }
    {
        self.bytes.saturating_add(rounded(size)) > MOST_HEAP_BYTES
    }

    /// Makes a heap object of a class, of which nothing has begun: the number of its whole. Size is that of the class, in bytes.
    ///
    /// Errors: want of memory. The machine is then of no use.
    pub fn make(&mut self, numbers: &Numbers, c: ClassId, size: u32) -> Result<u64, NoMemory>
        requires known { c.0 < length numbers.now }
        requires few { length self.old.heap.objects.items < most_objects }
        requires small { HasFewParts numbers.now c }
        requires room { self.old.bytes + size_in_heap size ≤ most_heap_bytes }
        ensures stands { IfOk result (λ n. (h : Classes) (sizes : ClassId → ℕ) (program : TypedProgram) (s : ProgramState) → AreClassNumbers h numbers.now → sizes c ≡ size → MachineStands h sizes program self.old s → MachineStands h sizes program self.new (with_objects s (with_new_object s.objects c))) }
        ensures whole { IfOk result (λ n. (h : Classes) (sizes : ClassId → ℕ) (program : TypedProgram) (s : ProgramState) → AreClassNumbers h numbers.now → MachineStands h sizes program self.old s → Points h (with_new_object s.objects c).classes n (whole_part (length s.objects.classes) c)) }
    {
        let n = self.heap.make(numbers, c)?;
        self.bytes += rounded(size);
        Ok(n)
    }
}
