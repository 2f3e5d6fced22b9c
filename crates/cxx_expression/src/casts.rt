//! Casts and type identification.

ghost use Rattle.std.specs.Prelude.{◌≡◌, OnOk};
ghost use Rattle.cxx_expression.specs.Checked.{Answers};
ghost use Rattle.cxx_expression.specs.Casts.{down_to, up_or_down, static_cast, if_polymorphic, up_or_dynamic, dynamic_cast, cast_of, cast_right, polymorphic_pointer, type_right};
ghost use Rattle.cxx_expression.specs.invariants.Known.{Knows};

use crate::classes::class_of;
use crate::faults::{FaultList, Piece, pair_of, refuse};
use crate::known::Known;
use crate::look_up::{Based, base_up, is_polymorphic};
use crate::operators::truth_value;
use crate::site::Site;
use crate::typed::{Pointer, RightValue};
use crate::values::pointer_of;
use cxx_hierarchy::{ClassId, Rule, ValueType};
use cxx_program::{TypedCast, TypedRight};
use cxx_subobject::{Root, Subobject};
use cxx_syntax::{CastKind, CastText, PointerText, Spot};
use foundation::NoMemory;

/// A cast down to a class, whose subobject the pointer names.
fn down_to(
    at: u32,
    faults: &mut FaultList,
    d: ClassId,
    s: Subobject,
) -> Result<Piece<TypedCast>, NoMemory>
    ensures { Answers result faults.old faults.new (down_to at d s s.root) }
{
    match s.root {
        Root::Whole => Ok(Ok(TypedCast::Down(d, s))),
        Root::Shared(_) => refuse(faults, Rule::DowncastVirtual, at),
    }
}

/// A cast to a class, by what each class is as a base of the other.
fn up_or_down(
    at: u32,
    faults: &mut FaultList,
    d: ClassId,
    up: Based,
    down: Based,
) -> Result<Piece<TypedCast>, NoMemory>
    ensures { Answers result faults.old faults.new (up_or_down at d up down) }
{
    match (up, down) {
        (Based::Base(s), _) => Ok(Ok(TypedCast::Up(s))),
        (Based::NotBase, Based::Base(s)) => down_to(at, faults, d, s),
        (Based::TwoBases, _) | (Based::NotBase, Based::TwoBases) => refuse(
            faults,
            Rule::AmbiguousBase,
            at,
        ),
        (Based::NotBase, Based::NotBase) => refuse(faults, Rule::NotBase, at),
    }
}

/// A static cast.
#[tactic(auto, unfolding(crate::specs::Casts::static_cast))]
fn static_cast(
    site: &Site,
    known: &mut Known,
    faults: &mut FaultList,
    c: ClassId,
    d: ClassId,
) -> Result<Piece<TypedCast>, NoMemory>
    requires knows { Knows site.now.h.now known.old }
    ensures answers { Answers result faults.old faults.new (static_cast site.now.h.now site.now.at c d) }
    ensures knows { OnOk result (Knows site.now.h.now known.new) }
{
    if c.0 == d.0 {
        return Ok(Ok(TypedCast::Same));
    }
    let up = base_up(site.h, known, c, d)?;
    let down = base_up(site.h, known, d, c)?;
    up_or_down(site.at, faults, d, up, down)
}

/// A dynamic cast.
#[tactic(auto, unfolding(crate::specs::Casts::dynamic_cast))]
fn dynamic_cast(
    site: &Site,
    known: &mut Known,
    faults: &mut FaultList,
    c: ClassId,
    d: ClassId,
) -> Result<Piece<TypedCast>, NoMemory>
    requires knows { Knows site.now.h.now known.old }
    ensures answers { Answers result faults.old faults.new (dynamic_cast site.now.h.now site.now.at c d) }
    ensures knows { OnOk result (Knows site.now.h.now known.new) }
{
    if c.0 == d.0 {
        return Ok(Ok(TypedCast::Same));
    }
    match base_up(site.h, known, c, d)? {
        Based::Base(s) => Ok(Ok(TypedCast::Up(s))),
        Based::TwoBases => refuse(faults, Rule::AmbiguousBase, site.at),
        Based::NotBase => {
            if is_polymorphic(site.h, known, c)? {
                return Ok(Ok(TypedCast::Dynamic(d)));
            }
            refuse(faults, Rule::NotPolymorphic, site.at)
        }
    }
}

/// A cast from a class to another.
#[tactic(auto, unfolding(crate::specs::Casts::cast_of))]
fn cast_of(
    site: &Site,
    known: &mut Known,
    faults: &mut FaultList,
    kind: CastKind,
    c: ClassId,
    d: ClassId,
) -> Result<Piece<TypedCast>, NoMemory>
    requires knows { Knows site.now.h.now known.old }
    ensures answers { Answers result faults.old faults.new (cast_of site.now.h.now site.now.at kind c d) }
    ensures knows { OnOk result (Knows site.now.h.now known.new) }
{
    match kind {
        CastKind::Static | CastKind::Plain => static_cast(site, known, faults, c, d),
        CastKind::Dynamic => dynamic_cast(site, known, faults, c, d),
    }
}

/// A cast as a right side.
#[tactic(auto, unfolding(crate::specs::Casts::cast_right))]
pub(crate) fn cast_right(
    site: &Site,
    known: &mut Known,
    faults: &mut FaultList,
    text: &CastText,
) -> Result<Piece<RightValue>, NoMemory>
    requires knows { Knows site.now.h.now known.old }
    ensures answers { Answers result faults.old faults.new (cast_right site.now.h.now site.now.setting.now site.now.scene.now site.now.at text.now) }
    ensures knows { OnOk result (Knows site.now.h.now known.new) }
{
    let target = class_of(site.h, faults, &text.target)?;
    let pointer = pointer_of(site, faults, &text.pointer)?;
    let (target, pointer) = match pair_of(target, pointer) {
        Ok(pair) => pair,
        Err(fault) => return Ok(Err(fault)),
    };
    let cast = match cast_of(site, known, faults, text.kind, pointer.class, target)? {
        Ok(cast) => cast,
        Err(fault) => return Ok(Err(fault)),
    };
    Ok(Ok(RightValue {
        right: Ok(TypedRight::Cast(cast, pointer.operand)),
        ty: ValueType::Pointer(target),
        is_null: false,
    }))
}

/// A pointer to a class with virtual functions, as typeid and `dynamic_cast<void*>` want it; `at` is the place of the
/// statement's first token. Faults: E18, E19, E22.
#[tactic(auto, unfolding(crate::specs::Casts::polymorphic_pointer))]
pub fn polymorphic_pointer(
    site: &Site,
    known: &mut Known,
    faults: &mut FaultList,
    pointer: &PointerText,
) -> Result<Piece<Pointer>, NoMemory>
    requires knows { Knows site.now.h.now known.old }
    ensures answers { Answers result faults.old faults.new (polymorphic_pointer site.now.h.now site.now.setting.now site.now.scene.now site.now.at pointer.now) }
    ensures knows { OnOk result (Knows site.now.h.now known.new) }
{
    let pointer = match pointer_of(site, faults, pointer)? {
        Ok(pointer) => pointer,
        Err(fault) => return Ok(Err(fault)),
    };
    if !is_polymorphic(site.h, known, pointer.class)? {
        return refuse(faults, Rule::NotPolymorphic, site.at);
    }
    Ok(Ok(pointer))
}

/// `typeid(*pointer) == typeid(class)`.
#[tactic(auto, unfolding(crate::specs::Casts::type_right))]
pub(crate) fn type_right(
    site: &Site,
    known: &mut Known,
    faults: &mut FaultList,
    pointer: &PointerText,
    name: &Spot,
) -> Result<Piece<RightValue>, NoMemory>
    requires knows { Knows site.now.h.now known.old }
    ensures answers { Answers result faults.old faults.new (type_right site.now.h.now site.now.setting.now site.now.scene.now site.now.at pointer.now name.now) }
    ensures knows { OnOk result (Knows site.now.h.now known.new) }
{
    let pointer = polymorphic_pointer(site, known, faults, pointer)?;
    let class = class_of(site.h, faults, name)?;
    let (pointer, class) = match pair_of(pointer, class) {
        Ok(pair) => pair,
        Err(fault) => return Ok(Err(fault)),
    };
    Ok(Ok(truth_value(TypedRight::TypeEqual(pointer.operand, class))))
}
