//! How an execution ends, by the answer of its last turn.

ghost use Rattle.std.specs.Prelude.{◌≡◌, ◌⊎◌, ℕ, MatchOption};
ghost use Rattle.cxx_hierarchy.specs.declared.stop.LimitNo.{LimitNo};
ghost use Rattle.cxx_hierarchy.specs.Stops.{limit_no};
ghost use Rattle.path_rules.specs.declared.Undefined.{Undefined};
ghost use Rattle.path_rules.specs.Rules.{undefined_no};
ghost use Rattle.byte_machine.specs.declared.turn.MachineTurn.{MachineTurn};
ghost use Rattle.text_told.specs.declared.ending.End.{End};
ghost use Rattle.abi_refine.specs.Endings.{turn_of};

use byte_machine::MachineTurn;
use cxx_hierarchy::LimitNo;
use path_rules::Undefined;
use text_told::End;

/// The rule with a number.
fn rule_of(number: u8) -> Undefined
    requires { (rule : Undefined) × (number ≡ undefined_no rule) }
    ensures { undefined_no result ≡ number }
{
    match number {
        1 => Undefined::NullUse,
        2 => Undefined::Dangling,
        3 => Undefined::NotReady,
        4 => Undefined::OutsideView,
        5 => Undefined::Unset,
        6 => Undefined::PureCall,
        7 => Undefined::BadDowncast,
        8 => Undefined::NonVirtualDelete,
        9 => Undefined::NotHeapObject,
        10 => Undefined::NotComplete,
        11 => Undefined::MissingReturn,
        12 => Undefined::Overflow,
        _ => unreachable!(),
    }
}

/// The limit with a number.
fn limit_of(number: u8) -> LimitNo
    requires { (limit : LimitNo) × (number ≡ limit_no limit) }
    ensures { limit_no result ≡ number }
{
    match number {
        1 => LimitNo::L1,
        2 => LimitNo::L2,
        3 => LimitNo::L3,
        4 => LimitNo::L4,
        5 => LimitNo::L5,
        6 => LimitNo::L6,
        7 => LimitNo::L7,
        8 => LimitNo::L8,
        9 => LimitNo::L9,
        10 => LimitNo::L10,
        _ => unreachable!(),
    }
}

/// The end that the answer of a turn is; None for a step that was taken.
pub(crate) fn end_of(turn: MachineTurn) -> Option<End>
    requires { (turn ≡ MachineTurn.Went) ⊎ ((e : End) × (turn ≡ turn_of e)) }
    ensures { MatchOption result (turn ≡ MachineTurn.Went) (λ e. turn_of e ≡ turn) }
{
    match turn {
        MachineTurn::Went => None,
        MachineTurn::Ended => Some(End::Done),
        MachineTurn::Refused(rule, line) => Some(End::Undefined(rule_of(rule), line)),
        MachineTurn::OutOfSteps => Some(End::OutOfSteps),
        MachineTurn::Limit(limit) => Some(End::Limit(limit_of(limit))),
    }
}
