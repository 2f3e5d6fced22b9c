//! The classes of names.

ghost use Rattle.std.specs.Prelude.{◌≡◌};
ghost use Rattle.cxx_expression.specs.Checked.{Answers};
ghost use Rattle.cxx_expression.specs.Lookups.{find_class};
ghost use Rattle.cxx_expression.specs.Values.{class_named, class_of_spot, type_of};

use crate::faults::{FaultList, Piece, refuse};
use cxx_hierarchy::{ClassId, Hierarchy, Name, Rule, ValueType};
use cxx_syntax::Spot;
use foundation::NoMemory;

/// The class of a name.
#[tactic(auto, using(crate::proofs::Finding::class_is))]
pub fn find_class(h: &Hierarchy, name: &[u8]) -> Option<ClassId>
    ensures { result ≡ find_class h.now name.now }
{
    h.keeps();
    h.find(name)
}

/// The class of a name that stands at a place in bytes. Faults: E3.
#[tactic(auto, unfolding(crate::specs::Values::class_named))]
pub fn class_named(
    h: &Hierarchy,
    faults: &mut FaultList,
    name: &Name,
    at: u32,
) -> Result<Piece<ClassId>, NoMemory>
    ensures { Answers result faults.old faults.new (class_named h.now name.now at) }
{
    let Some(class) = find_class(h, name.as_slice()) else {
        return refuse(faults, Rule::UnknownClass, at);
    };
    Ok(Ok(class))
}

/// The class of a name. Faults: E3.
#[tactic(auto, unfolding(crate::specs::Values::class_of_spot))]
pub fn class_of(h: &Hierarchy, faults: &mut FaultList, x: &Spot) -> Result<Piece<ClassId>, NoMemory>
    ensures { Answers result faults.old faults.new (class_of_spot h.now x.now) }
{
    class_named(h, faults, &x.name, x.at)
}

/// The type of a declaration; `at` is the place of its first token. Faults: E3.
#[tactic(auto, unfolding(crate::specs::Values::type_of))]
pub fn type_of(
    h: &Hierarchy,
    faults: &mut FaultList,
    ty: &ValueType<Name>,
    at: u32,
) -> Result<Piece<ValueType<ClassId>>, NoMemory>
    ensures { Answers result faults.old faults.new (type_of h.now ty.now at) }
{
    match ty {
        ValueType::Number(scalar) => Ok(Ok(ValueType::Number(*scalar))),
        ValueType::Pointer(name) => {
            let class = match class_named(h, faults, name, at)? {
                Ok(class) => class,
                Err(fault) => return Ok(Err(fault)),
            };
            Ok(Ok(ValueType::Pointer(class)))
        }
    }
}
