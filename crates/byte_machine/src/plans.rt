//! What constructors and destructors do besides their bodies (Itanium C++ ABI 2.6).

ghost use Rattle.std.specs.Prelude.{◌≡◌, None, IfOk};
ghost use Rattle.byte_machine.specs.Running.{with_this};
ghost use Rattle.byte_machine.specs.Plans.{is_ended, is_heap_object, part_begun, part_opened, part_phased, table_set, view_set};
ghost use Rattle.byte_machine.specs.Effects.{effect_of};
ghost use Rattle.byte_machine.specs.invariants.OpKinds.{op_kind, OfPlans};
ghost use Rattle.byte_machine.specs.invariants.States.{CanDo, DidAs, KeepsRoomAndOuts};

use crate::entering::enter;
use crate::frames::{Frame, Kept};
use crate::hands::{handed_to, owner_of, place_through, source_word};
use crate::heap::Opened;
use crate::running::{Running, Setup};
use crate::words::moved;
use byte_code::{Op, Opening, Phase, Setting};
use byte_memory::Memory;
use foundation::{NoMemory, Sequence};

/// Opens the frame of the first of so many parts, where there is one.
fn open_part<M: Memory>(
    setup: &Setup,
    running: &mut Running<M>,
    how: Opening,
    this: u64,
) -> Result<(), NoMemory>
    requires { CanDo setup.now (λ f s. part_opened f s how how.count this) running.old }
    ensures did { IfOk result (λ _. DidAs setup.now (λ f s. part_opened f s how how.count this) running.old running.new None) }
    ensures kept { KeepsRoomAndOuts setup.now.image running.old running.new }
{
    if how.count == 0 {
        return Ok(());
    }
    let handed = handed_to(setup, running.top.handed, this, how.hand).unwrap();
    let registers = enter(setup, running, moved(this, how.place as u64), &[])?;
    let kept = Kept {
        to: None,
        class: None,
        vbase: 0,
        add: 0,
        finish: Sequence::new(setup.alloc),
    };
    let frame = Frame {
        registers,
        handed,
        block: how.block,
        start: how.block,
        again: how.count - 1,
        stride: how.stride,
        is_call: false,
        kept,
    };
    running.opened.push(frame)?;
    Ok(())
}

/// Sets a virtual pointer.
fn set_table<M: Memory>(setup: &Setup, running: &mut Running<M>, how: Setting, this: u64)
    requires { CanDo setup.now (λ f s. table_set f s how this) running.old }
    ensures did { DidAs setup.now (λ f s. table_set f s how this) running.old running.new None }
    ensures kept { KeepsRoomAndOuts setup.now.image running.old running.new }
{
    let handed = running.top.handed;
    let point = source_word(setup, handed, how.source).unwrap();
    let at = place_through(setup, handed, moved(this, how.place as u64), how.through).unwrap();
    running
        .heap
        .store(at, 8, moved(point, how.distance))
        .unwrap();
}

/// Whether a subobject of the class at an address is a heap object itself.
fn is_object(at: u64, class: u32, object: Option<Opened>) -> bool
    ensures { result ≡ is_heap_object at class object }
{
    match object {
        None => false,
        Some(object) => object.start == at && object.class == class,
    }
}

fn is_ended(phase: Phase) -> bool
    ensures { result ≡ is_ended phase }
{
    matches!(phase, Phase::Ended)
}

/// Puts a subobject into a phase, and closes the region of a heap object that has ended.
fn set_phase<M: Memory>(
    _setup: &Setup,
    running: &mut Running<M>,
    class: u32,
    phase: Phase,
    this: u64,
)
    requires { CanDo _setup.now (λ f s. part_phased s class phase this) running.old }
    ensures did { DidAs _setup.now (λ f s. part_phased s class phase this) running.old running.new None }
    ensures kept { KeepsRoomAndOuts _setup.now.image running.old running.new }
{
    running.shadow.set_phase(this, class, phase);
    if is_ended(phase) && is_object(this, class, running.heap.opened(this)) {
        running.heap.close(this).unwrap();
    }
}

/// Runs an op of a constructor or a destructor. Errors: want of memory.
pub fn run_plan<M: Memory>(setup: &Setup, running: &mut Running<M>, op: &Op) -> Result<(), NoMemory>
    requires kind { op_kind op.now ≡ OfPlans }
    requires allowed { CanDo setup.now (λ f s. effect_of f op.now s) running.old }
    ensures did { IfOk result (λ _. DidAs setup.now (λ f s. effect_of f op.now s) running.old running.new None) }
    ensures kept { KeepsRoomAndOuts setup.now.image running.old running.new }
{
    if let Op::ViewBack = op {
        let handed = running.top.handed;
        running.shadow.set_view(
            handed.owner,
            handed.owner_class,
            handed.outer,
            handed.outer_class,
        )?;
        return Ok(());
    }
    let this = running.register(0).unwrap();
    match op {
        Op::Open(how) => open_part(setup, running, *how, this)?,
        Op::SetTable(how) => set_table(setup, running, *how, this),
        Op::Begin { class, owner } => {
            let owner = owner_of(running.top.handed, *owner, this, *class);
            running.shadow.begin(this, *class, owner.0, owner.1)?;
        }
        Op::SetPhase { class, phase } => set_phase(setup, running, *class, *phase, this),
        Op::SetView { class, owner } => {
            let owner = owner_of(running.top.handed, *owner, this, *class);
            running.shadow.set_view(owner.0, owner.1, this, *class)?;
        }
        _ => unreachable!(),
    }
    Ok(())
}
