//! The class-meaning pass: refuses the hierarchies whose classes are too large, in which a return does not fit, a
//! final overrider is not unique, or a member object is abstract, and keeps the tables that tell of the others.

ghost use Rattle.std.specs.Prelude.{◌≡◌, ◌<◌, ◌+◌, ◌↔◌, IsTrue, Some, IfOk, IfErr, OnOk, length, slice_index_or, false};
ghost use Rattle.cxx_hierarchy.specs.declared.records.ClassId.{ClassId};
ghost use Rattle.cxx_hierarchy.specs.Classes.{Classes};
ghost use Rattle.cxx_subobject.specs.declared.Subobject.{Subobject};
ghost use Rattle.cxx_subobject.specs.Subobjects.{IsSubobject, class_of};
ghost use Rattle.cxx_subobject.specs.Parts.{TellsLimits};
ghost use Rattle.cxx_overrider.specs.Overriding.{IsVirtual, IsFinalOverrider, IsAbstract};
ghost use Rattle.cxx_overrider.specs.Faults.{HasNoFault, StopsIn, StopsAtFault, spot, limit_part, function_part, overrider_part, member_part};
ghost use Rattle.cxx_overrider.specs.invariants.Settling.{IsMade};
ghost use Rattle.cxx_overrider.specs.invariants.Tables.{AreTables};
ghost use Rattle.cxx_overrider.specs.invariants.Pass.{TellsAbstract, IsFineTo, is_abstract_object, class_after};
ghost use Rattle.cxx_overrider.specs.Overriders.{AreOverriders};

use crate::abstracts::is_abstract_class;
use crate::covariance::return_fault;
use crate::entries::EntryTable;
use crate::overriding::{final_function, final_overrider};
use crate::settling::settle_class;
use crate::signatures::number_of;
use crate::sites::ClassSite;
use crate::tables::{Tables, tables_of};
use crate::virtuals::is_marked;
use crate::{FunctionId, Overrider};
use cxx_hierarchy::{ClassId, FieldType, Hierarchy, LimitNo, Member, Rule, Stop};
use cxx_subobject::{PartCounts, Subobject};
use foundation::NoMemory;
use std::alloc::Global;

/// What the pass keeps of a hierarchy without a fault: its tables, what overrides the functions of virtual bases,
/// and which classes are abstract.
#[derive(Drop)]
pub struct Overriders {
    alloc: Global,
    tables: Tables,
    entries: EntryTable,
    abstracts: Vec<bool>,
}

impl Overriders {
    /// The final overrider of a virtual function in a subobject of a class (ISO C++03 10.3 p2).
    ///
    /// Errors: want of memory.
    pub fn final_overrider(
        &self,
        h: &Hierarchy,
        c: ClassId,
        s: &Subobject,
        f: FunctionId,
    ) -> Result<Overrider, NoMemory>
        requires overriders { AreOverriders h.now self.now }
        requires known { c.0 < length h.now }
        requires subobject { IsSubobject h.now c s.now }
        requires of_class { class_of s.now ≡ Some f.class }
        requires is_virtual { IsVirtual h.now f }
        ensures { IfOk result (IsFinalOverrider h.now c s.now f) }
    {
        let site = ClassSite {
            h,
            tables: &self.tables,
            c,
        };
        final_overrider(self.alloc, &site, &self.entries, s, f)
    }

    /// The function of the final overrider of a virtual function in a subobject of a class (ISO C++03 10.3 p2). It
    /// takes no memory.
    pub fn final_function(
        &self,
        h: &Hierarchy,
        c: ClassId,
        s: &Subobject,
        f: FunctionId,
    ) -> FunctionId
        requires overriders { AreOverriders h.now self.now }
        requires known { c.0 < length h.now }
        requires subobject { IsSubobject h.now c s.now }
        requires of_class { class_of s.now ≡ Some f.class }
        requires is_virtual { IsVirtual h.now f }
        ensures { (at : Subobject) × IsFinalOverrider h.now c s.now f (record { at = at; function = result }) }
    {
        let site = ClassSite {
            h,
            tables: &self.tables,
            c,
        };
        final_function(&site, &self.entries, s, f)
    }

    /// Whether a function is virtual: declared so, or in a class that has a virtual function of its signature from
    /// a base (ISO C++03 10.3 p2). It takes no memory.
    pub fn is_virtual(&self, f: FunctionId) -> bool
        ensures { (h : Classes) → AreOverriders h self.now → IsTrue result ↔ IsVirtual h f }
    {
        match number_of(&self.tables.numbering.rows, f) {
            Some(n) => is_marked(&self.tables.virtuals, f.class, n),
            None => false,
        }
    }

    /// Whether a class is abstract (ISO C++03 10.4). It takes no memory.
    pub fn is_abstract(&self, c: ClassId) -> bool
        ensures { (h : Classes) → AreOverriders h self.now → c.0 < length h → IsTrue result ↔ IsAbstract h c }
    {
        is_marked_abstract(&self.abstracts, c)
    }
}

/// Refuses a class with too many subobjects or parts.
fn check_limits(h: &Hierarchy, counts: &PartCounts, c: ClassId) -> Result<(), Stop>
    requires known { c.0 < length h.now }
    requires counts { TellsLimits h.now counts.now }
    requires fine { IsFineTo h.now (spot c limit_part 0 0) }
    ensures fine { OnOk result (IsFineTo h.now (spot c function_part 0 0)) }
    ensures err { IfErr result (StopsIn h.now c) }
{
    h.keeps();
    if !counts.is_within(c) {
        return Err(Stop::Limit(LimitNo::L5));
    }
    Ok(())
}

/// Refuses a class with a function whose return does not fit those that it overrides.
fn check_returns(h: &Hierarchy, tables: &Tables, c: ClassId) -> Result<(), Stop>
    requires known { c.0 < length h.now }
    requires tables { AreTables h.now tables.now }
    requires fine { IsFineTo h.now (spot c function_part 0 0) }
    ensures fine { OnOk result (IsFineTo h.now (spot c overrider_part 0 0)) }
    ensures err { IfErr result (StopsIn h.now c) }
{
    h.keeps();
    let functions = h.class(c).functions.as_slice();
    for (index, function) in functions.iter().enumerate() {
        let f = FunctionId {
            class: c,
            index: index as u32,
        };
        match return_fault(h, tables, f) {
            Some(rule) => return Err(Stop::Refused(rule, function.at)),
            None => {}
        }
    }
    Ok(())
}

/// Refuses a class with two final overriders of a virtual function.
fn check_finals(
    alloc: Global,
    h: &Hierarchy,
    tables: &Tables,
    entries: &mut EntryTable,
    c: ClassId,
) -> Result<(), Stop>
    requires known { c.0 < length h.now }
    requires tables { AreTables h.now tables.now }
    requires made { IsMade h.now tables.now.numbering.rows.items entries.old c.0 0 0 }
    requires fine { IsFineTo h.now (spot c overrider_part 0 0) }
    ensures made { OnOk result (IsMade h.now tables.now.numbering.rows.items entries.new (c.0 + 1) 0 0) }
    ensures fine { OnOk result (IsFineTo h.now (spot c member_part 0 0)) }
    ensures err { IfErr result (StopsIn h.now c) }
{
    let class = h.class(c);
    let site = ClassSite { h, tables, c };
    let is_one = settle_class(alloc, &site, entries)?;
    if !is_one {
        return Err(Stop::Refused(Rule::TwoFinalOverriders, class.at));
    }
    Ok(())
}

/// Whether a class is marked as abstract.
fn is_marked_abstract(abstracts: &[bool], d: ClassId) -> bool
    ensures { result ≡ slice_index_or abstracts.now d.0 false }
{
    abstracts.get(d.0 as usize).copied().unwrap_or(false)
}

/// Whether a member is an object of an abstract class, or an array of such.
fn is_abstract_member(abstracts: &[bool], member: &Member<ClassId>) -> bool
    ensures { result ≡ is_abstract_object abstracts.now member.now.ty }
{
    match member.ty {
        FieldType::Value(_) => false,
        FieldType::Object(d) => is_marked_abstract(abstracts, d),
    }
}

/// Refuses a class with a member object of an abstract class (ISO C++03 10.4 p3).
fn check_members(h: &Hierarchy, abstracts: &[bool], c: ClassId) -> Result<(), Stop>
    requires known { c.0 < length h.now }
    requires abstracts { TellsAbstract h.now abstracts.now }
    requires size { length abstracts.now ≡ c.0 }
    requires fine { IsFineTo h.now (spot c member_part 0 0) }
    ensures fine { OnOk result (IsFineTo h.now (spot (class_after c) limit_part 0 0)) }
    ensures err { IfErr result (StopsIn h.now c) }
{
    h.keeps();
    let members = h.class(c).members.as_slice();
    for member in members {
        if is_abstract_member(abstracts, member) {
            return Err(Stop::Refused(Rule::Abstract, member.at));
        }
    }
    Ok(())
}

/// Checks a class: its size, the returns of its functions in their order, that each virtual function has one final
/// overrider in each subobject, and its member objects in their order. Then it marks whether the class is abstract.
///
/// Errors: the first condition that is not met, as a refusal at a byte or as the limit; want of memory.
fn check_class(
    alloc: Global,
    h: &Hierarchy,
    counts: &PartCounts,
    tables: &Tables,
    entries: &mut EntryTable,
    abstracts: &mut Vec<bool>,
    c: ClassId,
) -> Result<(), Stop>
    requires known { c.0 < length h.now }
    requires counts { TellsLimits h.now counts.now }
    requires tables { AreTables h.now tables.now }
    requires made { IsMade h.now tables.now.numbering.rows.items entries.old c.0 0 0 }
    requires abstracts { TellsAbstract h.now abstracts.old.items }
    requires size { length abstracts.old.items ≡ c.0 }
    requires fine { IsFineTo h.now (spot c limit_part 0 0) }
    ensures made { OnOk result (IsMade h.now tables.now.numbering.rows.items entries.new (c.0 + 1) 0 0) }
    ensures abstracts { OnOk result (TellsAbstract h.now abstracts.new.items) }
    ensures size { OnOk result (length abstracts.new.items ≡ c.0 + 1) }
    ensures fine { OnOk result (IsFineTo h.now (spot (class_after c) limit_part 0 0)) }
    ensures err { IfErr result (StopsIn h.now c) }
{
    check_limits(h, counts, c)?;
    check_returns(h, tables, c)?;
    check_finals(alloc, h, tables, entries, c)?;
    check_members(h, abstracts, c)?;
    let site = ClassSite { h, tables, c };
    let is_abstract = is_abstract_class(&site, entries);
    abstracts.push(is_abstract)?;
    Ok(())
}

/// Where the pass stops: the class that a condition refuses, and how. After want of memory the class says nothing.
#[derive(Clone, Copy, Debug, PartialEq, Eq)]
pub struct ClassStop {
    pub class: ClassId,
    pub stop: Stop,
}

impl From<NoMemory> for ClassStop {
    ghost use Rattle.std.specs.Prelude.{◌≡◌};
    ghost use Rattle.cxx_hierarchy.specs.declared.stop.Stop.{Stop};

    ghost from_gives = { λ _ e. e.stop ≡ Stop.NoMemory };

    fn from(_: NoMemory) -> ClassStop {
        ClassStop {
            class: ClassId(0),
            stop: Stop::NoMemory,
        }
    }
}

/// Checks the classes of a hierarchy in their order: in each its size, the returns of its functions in their order,
/// that each virtual function has one final overrider in each subobject, and its member objects in their order.
///
/// Errors: the first condition that is not met, as a refusal at a byte or as the limit, and the class that it refuses;
/// want of memory.
pub fn check_by_class(alloc: Global, h: &Hierarchy) -> Result<Overriders, ClassStop>
    ensures ok { IfOk result (AreOverriders h.now) }
    ensures fine { OnOk result (HasNoFault h.now) }
    ensures err { IfErr result (λ e. StopsIn h.now e.class e.stop) }
{
    h.keeps();
    let counts = PartCounts::new(alloc, h)?;
    let tables = tables_of(alloc, h)?;
    let classes = h.len();
    let mut entries = EntryTable::new(alloc, classes)?;
    let mut abstracts = Vec::new(alloc);
    for number in 0..h.len() {
        let class = ClassId(number);
        match check_class(
            alloc,
            h,
            &counts,
            &tables,
            &mut entries,
            &mut abstracts,
            class,
        ) {
            Ok(()) => {}
            Err(stop) => return Err(ClassStop { class, stop }),
        }
    }
    Ok(Overriders {
        alloc,
        tables,
        entries,
        abstracts,
    })
}

/// Checks the classes of a hierarchy as `check_by_class` does.
///
/// Errors: the first condition that is not met, as a refusal at a byte or as the limit; want of memory.
pub fn check_overriders(alloc: Global, h: &Hierarchy) -> Result<Overriders, Stop>
    ensures ok { IfOk result (AreOverriders h.now) }
    ensures fine { OnOk result (HasNoFault h.now) }
    ensures err { IfErr result (StopsAtFault h.now) }
{
    match check_by_class(alloc, h) {
        Ok(overriders) => Ok(overriders),
        Err(e) => Err(e.stop),
    }
}
