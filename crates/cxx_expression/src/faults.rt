//! The refusals of a statement, what a piece of one is or the fault that refuses it, and the least of the faults.

ghost use Rattle.std.specs.Prelude.{◌≡◌, ◌++◌, ◌∷◌, [], IfOk, IfErr, OnOk, Ok, Err};
ghost use Rattle.cxx_hierarchy.specs.declared.stop.Stop.TheVariants.{NoMemory as OutOfMemory};
ghost use Rattle.cxx_expression.specs.Checked.{Answers, pair_of, fail};
ghost use Rattle.cxx_expression.specs.Faults.{is_before, least, settled};

use cxx_hierarchy::{Rule, Stop};
use foundation::{NoMemory, Sequence};

/// A rule that refuses, and the place in bytes.
#[derive(Clone, Copy)]
pub struct Fault {
    pub rule: Rule,
    pub at: u32,
}

pub type FaultList = Sequence<Fault>;

/// What a piece of a statement is typed to, or the fault that refuses it.
pub type Piece<X> = Result<X, Fault>;

/// Both pieces, or the first fault that refuses one of them.
pub fn pair_of<X: Drop, Y: Drop>(x: Piece<X>, y: Piece<Y>) -> Piece<(X, Y)>
    ensures { result ≡ pair_of x y }
{
    Ok((x?, y?))
}

/// Whether a fault counts before another: the least number, and of one number the first place.
fn is_before(f: Fault, g: Fault) -> bool
    ensures { result ≡ is_before f g }
{
    let (a, b) = (f.rule.no(), g.rule.no());
    if a < b {
        return true;
    }
    if b < a {
        return false;
    }
    f.at < g.at
}

/// The fault that counts.
pub fn least(faults: &[Fault]) -> Option<Fault>
    ensures { result ≡ least faults.now }
{
    let (first, rest) = faults.split_first()?;
    match least(rest) {
        None => Some(*first),
        Some(other) => {
            if is_before(other, *first) {
                Some(other)
            } else {
                Some(*first)
            }
        }
    }
}

/// Adds a fault.
///
/// Errors: want of memory.
pub fn note(faults: &mut FaultList, rule: Rule, at: u32) -> Result<(), NoMemory>
    ensures { OnOk result (faults.new ≡ faults.old ++ (record { rule = rule; at = at }) ∷ []) }
{
    faults.push(Fault { rule, at })
}

/// Adds a fault to a piece that is then not typed.
///
/// Errors: want of memory.
pub fn refuse<X>(faults: &mut FaultList, rule: Rule, at: u32) -> Result<Piece<X>, NoMemory>
    ensures { Answers result faults.old faults.new (fail rule at) }
{
    note(faults, rule, at)?;
    Ok(Err(Fault { rule, at }))
}

/// The fault that counts, or what is typed.
///
/// Errors: `Refused` with the fault that counts among those of a piece.
pub fn settle<X: Drop>(faults: &[Fault], typed: Piece<X>) -> Result<X, Stop>
    ensures ok { IfOk result (λ x. settled (least faults.now) typed ≡ Ok x) }
    ensures err { IfErr result (λ stop. settled (least faults.now) typed ≡ Err stop) }
{
    match (least(faults), typed) {
        (Some(fault), _) | (None, Err(fault)) => Err(Stop::Refused(fault.rule, fault.at)),
        (None, Ok(typed)) => Ok(typed),
    }
}
