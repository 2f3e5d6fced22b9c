//! What a statement uses, and the checks that are made of it.

ghost use Rattle.std.specs.Prelude.{◌≡◌, ◌++◌, ◌∷◌, [], OnOk, map};
ghost use Rattle.std.specs.List.{flat_map};
ghost use Rattle.std.specs.Option.{option_to_list};
ghost use Rattle.byte_code.specs.declared.op.Finish.TheVariants.{Check as CheckOp};
ghost use Rattle.path_rules.specs.declared.Undefined.TheVariants.{NullUse, Dangling, NotReady, OutsideView, Unset, PureCall, BadDowncast, NonVirtualDelete, NotHeapObject, NotComplete, Overflow};
ghost use Rattle.code_ops.specs.Uses.{checks_of, check_list, check_ops};

use crate::operands::push_done;
use byte_code::{ArithKind, Check, Finish, FinishList, OpList, Width};
use foundation::{NoMemory, Sequence};
use path_rules::Undefined;
use std::alloc::Global;

/// A use of what a register has; an address is meant so many bytes behind.
#[derive(Clone, Copy, Debug, PartialEq, Eq)]
pub enum Used {
    ReadsNumber {
        register: u32,
    },
    ReadsPointer {
        register: u32,
    },
    Follows {
        register: u32,
    },
    Guards {
        register: u32,
        offset: u64,
        class: u32,
    },
    Views {
        register: u32,
        offset: u64,
        class: u32,
    },
    Takes {
        register: u32,
        entry: u32,
    },
    Downs {
        register: u32,
        offset: u64,
        class: u32,
    },
    Deletes {
        register: u32,
        class: u32,
        is_virtual: bool,
    },
    Dumps {
        register: u32,
    },
    Overflows {
        kind: ArithKind,
        width: Width,
        left: u32,
        right: u32,
    },
}

/// The uses of a statement, in text order.
pub type UseList = Sequence<Used>;

/// The number of rules.
const RULES: usize = 12;

/// The rules in the order in which they are asked.
const RULE_ORDER: [Undefined; RULES] = [
    Undefined::NullUse,
    Undefined::Dangling,
    Undefined::NotReady,
    Undefined::OutsideView,
    Undefined::Unset,
    Undefined::PureCall,
    Undefined::BadDowncast,
    Undefined::NonVirtualDelete,
    Undefined::NotHeapObject,
    Undefined::NotComplete,
    Undefined::MissingReturn,
    Undefined::Overflow,
];

/// 1: the address is not 0.
fn null_check(used: Used) -> Option<Check>
    ensures { option_to_list result ≡ checks_of NullUse used }
{
    match used {
        Used::Follows { register } => Some(Check::NotNull { register }),
        _ => None,
    }
}

/// 2: the region is open.
fn open_check(used: Used) -> Option<Check>
    ensures { option_to_list result ≡ checks_of Dangling used }
{
    match used {
        Used::ReadsPointer { register } => Some(Check::Open { register }),
        _ => None,
    }
}

/// 3: the subobject is ready.
fn ready_check(used: Used) -> Option<Check>
    ensures { option_to_list result ≡ checks_of NotReady used }
{
    match used {
        Used::Guards {
            register,
            offset,
            class,
        } => Some(Check::Ready {
            register,
            offset,
            class,
        }),
        _ => None,
    }
}

/// 4: the subobject is within the view.
fn view_check(used: Used) -> Option<Check>
    ensures { option_to_list result ≡ checks_of OutsideView used }
{
    match used {
        Used::Views {
            register,
            offset,
            class,
        } => Some(Check::InView {
            register,
            offset,
            class,
        }),
        _ => None,
    }
}

/// 5: there is a value.
fn set_check(used: Used) -> Option<Check>
    ensures { option_to_list result ≡ checks_of Unset used }
{
    match used {
        Used::ReadsNumber { register } => Some(Check::SetRegister { register }),
        Used::ReadsPointer { register } => Some(Check::SetRegister { register }),
        _ => None,
    }
}

/// 6: the entry has code.
fn code_check(used: Used) -> Option<Check>
    ensures { option_to_list result ≡ checks_of PureCall used }
{
    match used {
        Used::Takes { register, entry } => Some(Check::HasCode { register, entry }),
        _ => None,
    }
}

/// 7: there is such a derived object.
fn derived_check(used: Used) -> Option<Check>
    ensures { option_to_list result ≡ checks_of BadDowncast used }
{
    match used {
        Used::Downs {
            register,
            offset,
            class,
        } => Some(Check::Derived {
            register,
            offset,
            class,
        }),
        _ => None,
    }
}

/// 8: without a virtual destructor the subobject is the whole.
fn whole_check(used: Used) -> Option<Check>
    ensures { option_to_list result ≡ checks_of NonVirtualDelete used }
{
    match used {
        Used::Deletes {
            register,
            class,
            is_virtual: false,
        } => Some(Check::Whole { register, class }),
        _ => None,
    }
}

/// 9: the complete object is a heap object.
fn heap_check(used: Used) -> Option<Check>
    ensures { option_to_list result ≡ checks_of NotHeapObject used }
{
    match used {
        Used::Deletes {
            register,
            class,
            ..
        } => Some(Check::HeapObject { register, class }),
        _ => None,
    }
}

/// 10: the heap object is complete.
fn complete_check(used: Used) -> Option<Check>
    ensures { option_to_list result ≡ checks_of NotComplete used }
{
    match used {
        Used::Deletes { register, .. } => Some(Check::Complete { register }),
        Used::Dumps { register } => Some(Check::Complete { register }),
        _ => None,
    }
}

/// 12: the result fits its type.
fn overflow_check(used: Used) -> Option<Check>
    ensures { option_to_list result ≡ checks_of Overflow used }
{
    match used {
        Used::Overflows {
            kind,
            width,
            left,
            right,
        } => Some(Check::Fits {
            kind,
            width,
            left,
            right,
        }),
        _ => None,
    }
}

/// The check of a rule, where the use can break it.
fn check_of(rule: Undefined, used: Used) -> Option<Check>
    ensures { option_to_list result ≡ checks_of rule used }
{
    match rule {
        Undefined::NullUse => null_check(used),
        Undefined::Dangling => open_check(used),
        Undefined::NotReady => ready_check(used),
        Undefined::OutsideView => view_check(used),
        Undefined::Unset => set_check(used),
        Undefined::PureCall => code_check(used),
        Undefined::BadDowncast => derived_check(used),
        Undefined::NonVirtualDelete => whole_check(used),
        Undefined::NotHeapObject => heap_check(used),
        Undefined::NotComplete => complete_check(used),
        Undefined::MissingReturn => None,
        Undefined::Overflow => overflow_check(used),
    }
}

/// Puts the checks of a rule behind others.
fn push_checks_of(list: &mut FinishList, rule: Undefined, uses: &[Used]) -> Result<(), NoMemory>
    ensures { OnOk result (list.new ≡ list.old ++ map CheckOp (flat_map (checks_of rule) uses.now)) }
{
    for used in uses {
        match check_of(rule, *used) {
            Some(check) => list.push(Finish::Check(check))?,
            None => {}
        }
    }
    Ok(())
}

/// Puts the checks of these rules behind others, one rule after the other.
fn push_by_rules(list: &mut FinishList, rules: &[Undefined], uses: &[Used]) -> Result<(), NoMemory>
    ensures { OnOk result (list.new ≡ list.old ++ map CheckOp (flat_map (λ rule. flat_map (checks_of rule) uses.now) rules.now)) }
{
    for rule in rules {
        push_checks_of(list, *rule, uses)?;
    }
    Ok(())
}

/// Puts the checks of some uses behind others, sorted by rule.
///
/// Errors: want of memory.
#[tactic(auto, unfolding(crate::specs::Uses::sorted_checks))]
pub fn push_checks(list: &mut FinishList, uses: &[Used]) -> Result<(), NoMemory>
    ensures { OnOk result (list.new ≡ list.old ++ check_list uses.now) }
{
    push_by_rules(list, &RULE_ORDER, uses)?;
    Ok(())
}

/// Puts the checks of some uses behind the ops of a block, sorted by rule.
///
/// Errors: want of memory.
pub fn push_check_ops(alloc: Global, ops: &mut OpList, uses: &[Used]) -> Result<(), NoMemory>
    ensures { OnOk result (ops.new ≡ ops.old ++ check_ops uses.now) }
{
    let mut list = Sequence::new(alloc);
    push_checks(&mut list, uses)?;
    push_done(ops, list.as_slice())?;
    Ok(())
}
