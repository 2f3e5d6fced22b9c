//! Declarations of locals.

ghost use Rattle.std.specs.Prelude.{◌≡◌, ◌<◌, OnOk};
ghost use Rattle.cxx_resolve.specs.Walks.{most_locals};
ghost use Rattle.cxx_overrider.specs.Overriders.{AreOverriders};
ghost use Rattle.cxx_expression.specs.Checked.{Answers};
ghost use Rattle.cxx_expression.specs.invariants.Known.{Knows};
ghost use Rattle.cxx_resolve.specs.Statements.{new_variable, first_value, declare_of, AnswersDeclaration};

use crate::body_site::BodySite;
use cxx_expression::{FaultList, Known, Piece, Scene, Site, converted_right, note, type_of};
use cxx_hierarchy::{ClassId, Hierarchy, Name, Rule, ValueType};
use cxx_program::TypedKind;
use cxx_syntax::{Right, Spot};
use foundation::NoMemory;

/// A variable that is declared: its type and the place of that in bytes, its name, and its first value.
#[derive(Drop)]
pub struct NewVariable<'a> {
    pub ty: &'a ValueType<Name>,
    pub ty_at: u32,
    pub name: &'a Spot,
    pub init: &'a Option<Right>,
}

/// The type of a variable that is declared.
#[tactic(auto, unfolding(crate::specs::Statements::new_variable))]
fn new_variable(
    h: &Hierarchy,
    scene: &Scene,
    faults: &mut FaultList,
    variable: &NewVariable,
) -> Result<Piece<ValueType<ClassId>>, NoMemory>
    ensures { Answers result faults.old faults.new (new_variable h.now scene.now variable.now.ty.now variable.now.ty_at variable.now.name.now) }
{
    let name = variable.name;
    let ty = match type_of(h, faults, variable.ty, variable.ty_at)? {
        Ok(ty) => ty,
        Err(fault) => return Ok(Err(fault)),
    };
    if scene.is_taken(name.name.as_slice()) {
        note(faults, Rule::DuplicateMember, name.at)?;
    }
    Ok(Ok(ty))
}

/// The first value of a variable.
#[tactic(auto, unfolding(crate::specs::Statements::first_value))]
fn first_value(
    site: &Site,
    known: &mut Known,
    faults: &mut FaultList,
    ty: &ValueType<ClassId>,
    number: usize,
    init: &Option<Right>,
) -> Result<Piece<TypedKind>, NoMemory>
    requires made { AreOverriders site.now.h.now site.now.overriders.now }
    requires knows { Knows site.now.h.now known.old }
    ensures answers { Answers result faults.old faults.new (first_value site.now.h.now site.now.setting.now site.now.scene.now site.now.at ty.now number init.now) }
    ensures knows { OnOk result (Knows site.now.h.now known.new) }
{
    let Some(right) = init else {
        return Ok(Ok(TypedKind::Declare(number, None)));
    };
    let value = match converted_right(site, known, faults, ty, right)? {
        Ok(value) => value,
        Err(fault) => return Ok(Err(fault)),
    };
    Ok(Ok(TypedKind::Declare(number, Some(value))))
}

/// A declaration. Its name is in scope in its own right side.
#[tactic(auto, unfolding(crate::specs::Statements::declare_of))]
pub(crate) fn declare_of(
    body: &BodySite,
    known: &mut Known,
    scene: &mut Scene,
    at: u32,
    faults: &mut FaultList,
    variable: &NewVariable,
) -> Result<Piece<TypedKind>, NoMemory>
    requires made { AreOverriders body.now.h.now body.now.overriders.now }
    requires knows { Knows body.now.h.now known.old }
    requires few { scene.old.declared < most_locals }
    ensures declares { AnswersDeclaration result scene.new faults.old faults.new (declare_of body.now.h.now body.now.setting.now scene.old at variable.now.ty.now variable.now.ty_at variable.now.name.now variable.now.init.now) }
    ensures knows { OnOk result (Knows body.now.h.now known.new) }
{
    let ty = match new_variable(body.h, scene, faults, variable)? {
        Ok(ty) => ty,
        Err(fault) => return Ok(Err(fault)),
    };
    let number = scene.types.len();
    scene.declare(body.alloc, &variable.name.name, &ty)?;
    let site = body.site(scene, at);
    first_value(&site, known, faults, &ty, number, variable.init)
}
