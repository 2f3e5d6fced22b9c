//! The virtual pointers of a class.

ghost use Rattle.std.specs.Prelude.{◌≡◌, ◌<◌, ◌++◌, ◌∷◌, [], IfOk, OnOk, List, length, map};
ghost use Rattle.cxx_hierarchy.specs.declared.records.ClassId.{ClassId};
ghost use Rattle.cxx_subobject.specs.declared.Subobject.{Subobject};
ghost use Rattle.cxx_subobject.specs.Subobjects.{IsSubobject};
ghost use Rattle.byte_code.specs.declared.op.Op.TheVariants.{SetTable};
ghost use Rattle.path_plan.specs.declared.form.Form.TheVariants.{AsBase, InFull};
ghost use Rattle.code_ops.specs.Setups.{Setup};
ghost use Rattle.code_blocks.specs.Blocks.{pointers_then};
ghost use Rattle.code_plans.specs.ClassTables.{IsLone};
ghost use Rattle.code_plans.specs.PlanSites.{IsLaidPlanSite, plan_places, plan_setup};
ghost use Rattle.code_plans.specs.Settings.{ArePointers, settings_of};
ghost use Rattle.code_plans.specs.invariants.Walks.{IsAtPart, IsPast};

use crate::parts::{class_at, is_set_apart};
use crate::plan_sites::PlanSite;
use crate::settings::{base_setting, full_setting};
use crate::walks::{Walk, passed, point_of, start};
use abi_primary::flag_of;
use abi_sound::SoundLayout;
use byte_code::{Op, OpList, Setting};
use cxx_hierarchy::ClassId;
use cxx_subobject::listing::longer_path;
use cxx_subobject::{Root, Subobject, list_subobjects};
use foundation::{NoMemory, Sequence};
use path_plan::Form;

/// A list of settings.
pub type SettingList = Sequence<Setting>;

/// How the virtual pointers of a class are set, in the preorder of its subobjects: in a complete object, and in a base.
#[derive(Drop)]
pub struct ClassPointers {
    pub(crate) in_full: SettingList,
    pub(crate) as_base: SettingList,
}

/// Puts the settings of a subobject behind others, where it is set apart, and goes on behind it.
///
/// Errors: want of memory.
fn visit<L: SoundLayout>(
    site: &PlanSite<L>,
    c: ClassId,
    s: &Subobject,
    walk: &mut Walk,
    made: &mut ClassPointers,
) -> Result<(), NoMemory>
    requires site { IsLaidPlanSite L.lays_out L.rows site.now }
    requires known { c.0 < length site.now.h.now }
    requires valid { IsSubobject site.now.h.now c s.now }
    requires at { IsAtPart site.now.h.now (plan_places L.rows site.now) c s.now walk.old }
    ensures in_full { OnOk result (made.new.in_full ≡ made.old.in_full ++ settings_of (plan_setup L.rows site.now) InFull c (s.now ∷ [])) }
    ensures as_base { OnOk result (made.new.as_base ≡ made.old.as_base ++ settings_of (plan_setup L.rows site.now) AsBase c (s.now ∷ [])) }
    ensures walk { OnOk result ((before : List Subobject) → IsPast site.now.h.now (plan_places L.rows site.now) c before walk.old → IsPast site.now.h.now (plan_places L.rows site.now) c (before ++ s.now ∷ []) walk.new) }
{
    let d = class_at(s);
    if is_set_apart(site, s, d) {
        let point = point_of(site, c, walk, s, d);
        made.in_full.push(full_setting(site, c, s, point))?;
        made.as_base.push(base_setting(site, c, s, point)?)?;
        *walk = passed(site, *walk, s, d);
    }
    Ok(())
}

/// The settings of a class of which no base is set apart.
///
/// Errors: want of memory.
fn of_whole<L: SoundLayout>(site: &PlanSite<L>, c: ClassId) -> Result<ClassPointers, NoMemory>
    requires site { IsLaidPlanSite L.lays_out L.rows site.now }
    requires known { c.0 < length site.now.h.now }
    requires lone { IsLone site.now.h.now (plan_places L.rows site.now) c }
    ensures { IfOk result (ArePointers (plan_setup L.rows site.now) c) }
{
    let whole = Subobject {
        root: Root::Whole,
        path: longer_path(site.alloc, &[c], &[])?,
    };
    let mut walk = start(site, c);
    let mut made = ClassPointers {
        in_full: Sequence::new(site.alloc),
        as_base: Sequence::new(site.alloc),
    };
    visit(site, c, &whole, &mut walk, &mut made)?;
    Ok(made)
}

/// The settings of a class, by a walk over its subobjects.
///
/// Errors: want of memory.
fn of_all<L: SoundLayout>(site: &PlanSite<L>, c: ClassId) -> Result<ClassPointers, NoMemory>
    requires site { IsLaidPlanSite L.lays_out L.rows site.now }
    requires known { c.0 < length site.now.h.now }
    ensures { IfOk result (ArePointers (plan_setup L.rows site.now) c) }
{
    site.h.keeps();
    let list = list_subobjects(site.alloc, site.h, c)?;
    let mut walk = start(site, c);
    let mut made = ClassPointers {
        in_full: Sequence::new(site.alloc),
        as_base: Sequence::new(site.alloc),
    };
    for s in list.as_slice() {
        visit(site, c, s, &mut walk, &mut made)?;
    }
    Ok(made)
}

impl ClassPointers {
    /// The settings of a class. Where no base has a virtual pointer of its own, nothing is listed; else time goes with the
    /// subobjects and the lengths of their paths.
    ///
    /// Errors: want of memory.
    pub fn new<L: SoundLayout>(site: &PlanSite<L>, c: ClassId) -> Result<ClassPointers, NoMemory>
        requires site { IsLaidPlanSite L.lays_out L.rows site.now }
        requires known { c.0 < length site.now.h.now }
        ensures { IfOk result (ArePointers (plan_setup L.rows site.now) c) }
    {
        if flag_of(site.tables.lone.as_slice(), c) {
            let made = of_whole(site, c)?;
            return Ok(made);
        }
        let made = of_all(site, c)?;
        Ok(made)
    }
}

/// Puts the ops of some settings behind others.
fn push_settings(ops: &mut OpList, settings: &[Setting]) -> Result<(), NoMemory>
    ensures { OnOk result (ops.new ≡ ops.old ++ map SetTable settings.now) }
{
    for setting in settings {
        ops.push(Op::SetTable(*setting))?;
    }
    Ok(())
}

/// Puts the ops behind others that set all virtual pointers of a part, by the settings of its class.
///
/// Errors: want of memory.
pub fn push_pointers(ops: &mut OpList, pointers: &ClassPointers, form: Form) -> Result<(), NoMemory>
    ensures { OnOk result ((x : Setup) (c : ClassId) → ArePointers x c pointers.now → ops.new ≡ ops.old ++ pointers_then x form c []) }
{
    match form {
        Form::InFull => push_settings(ops, pointers.in_full.as_slice())?,
        Form::AsBase => push_settings(ops, pointers.as_base.as_slice())?,
    }
    Ok(())
}
