//! Where control goes from a statement, and how an operand is printed.

ghost use Rattle.std.specs.Prelude.{◌≡◌, ◌<◌, ◌^◌, ◌+◌, ◌∷◌, [], ◌++◌, OnOk};
ghost use Rattle.std.specs.Option.{option_copied};
ghost use Rattle.path_model.specs.Effects.{block_at};
ghost use Rattle.byte_code.specs.declared.op.Op.TheVariants.{Jump};
ghost use Rattle.code_statements.specs.Statements.{print_as as print_as_of, operand_print, written_width as written_width_of};
ghost use Rattle.code_ops.specs.invariants.Sites.{site_scope};

use abi_sound::SoundLayout;
use byte_code::{Op, OpList, PrintAs, Width};
use code_ops::sites::Site;
use code_ops::widths::register_width;
use cxx_hierarchy::{ClassId, Scalar, ValueType};
use cxx_program::{TypedOperand, Variable};
use foundation::NoMemory;

/// Where control goes from a statement: the block of the first statement of its body, its own number, and that of the statement
/// behind it, whose block has a number of 32 bits.
#[derive(Clone, Copy)]
pub struct Flow {
    pub base: u32,
    pub number: usize,
    pub next: usize,
    ghost room: { base + next < 2 ^ 32 },
}

/// The block of a statement of the body.
pub fn target(flow: Flow, m: usize) -> u32
    requires { flow.base + m < 2 ^ 32 }
    ensures { result ≡ flow.base + m }
{
    flow.base + m as u32
}

/// Goes on to the statement behind.
pub fn push_jump(ops: &mut OpList, flow: Flow) -> Result<(), NoMemory>
    ensures { OnOk result (ops.new ≡ ops.old ++ Jump (flow.base + flow.next) ∷ []) }
{
    ops.push(Op::Jump {
        block: target(flow, flow.next),
    })?;
    Ok(())
}

/// The number where a block of statements goes on: behind it where its first number is its end.
pub fn block_at(n: usize, end: usize, behind: usize) -> usize
    ensures { result ≡ block_at n end behind }
{
    if n == end { behind } else { n }
}

/// How a register of a type is printed.
fn print_as(type_found: Option<&ValueType<ClassId>>) -> PrintAs
    ensures { result ≡ print_as_of (option_copied type_found.entry) }
{
    match type_found {
        Some(ValueType::Number(scalar)) => PrintAs::Number(register_width(*scalar)),
        Some(ValueType::Pointer(_)) => PrintAs::Address,
        // never met in a typed program (`programs_are_typed` of cxx_typing): each of its variables has a type
        None => PrintAs::Number(register_width(Scalar::Int)),
    }
}

/// How a number that is written is printed.
fn written_width(number: i64) -> Width
    ensures { result ≡ written_width_of number }
{
    Width {
        bytes: 8,
        signed: number < 0,
    }
}

/// How an operand is printed.
pub fn operand_print<L: SoundLayout>(site: &Site<L>, p: TypedOperand) -> PrintAs
    ensures { result ≡ operand_print (site_scope site.now) p }
{
    match p {
        TypedOperand::Variable(variable) => print_as(site.variable_type(variable)),
        TypedOperand::This => PrintAs::Address,
        TypedOperand::Number(number) => PrintAs::Number(written_width(number)),
    }
}
