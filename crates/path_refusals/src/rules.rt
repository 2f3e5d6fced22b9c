//! Which of two rules is first.

ghost use Rattle.std.specs.Prelude.{◌≡◌};
ghost use Rattle.path_rules.specs.Rules.{undefined_no};
ghost use Rattle.path_refusals.specs.invariants.Pieces.{smaller, least_undefined};

use path_rules::Undefined;

/// The number of a rule.
fn number(rule: Undefined) -> u32
    ensures { result ≡ undefined_no rule }
{
    match rule {
        Undefined::NullUse => 1,
        Undefined::Dangling => 2,
        Undefined::NotReady => 3,
        Undefined::OutsideView => 4,
        Undefined::Unset => 5,
        Undefined::PureCall => 6,
        Undefined::BadDowncast => 7,
        Undefined::NonVirtualDelete => 8,
        Undefined::NotHeapObject => 9,
        Undefined::NotComplete => 10,
        Undefined::MissingReturn => 11,
        Undefined::Overflow => 12,
    }
}

/// The rule of the smaller number.
fn smaller(a: Undefined, b: Undefined) -> Undefined
    ensures { result ≡ smaller a b }
{
    if number(b) < number(a) { b } else { a }
}

/// The rule that two lists of uses break first, by that of each.
pub(crate) fn least(a: Option<Undefined>, b: Option<Undefined>) -> Option<Undefined>
    ensures { result ≡ least_undefined a b }
{
    match (a, b) {
        (None, other) => other,
        (Some(first), None) => Some(first),
        (Some(first), Some(second)) => Some(smaller(first, second)),
    }
}
