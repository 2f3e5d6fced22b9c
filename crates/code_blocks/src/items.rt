//! The plan of a class as a list.

ghost use Rattle.std.specs.Prelude.{◌≡◌, ◌<◌, ◌≤◌, ◌+◌, ◌∷◌, [], ◌++◌, false, OnOk, IfOk, Some, length, slice_get};
ghost use Rattle.std.specs.List.{flat_map};
ghost use Rattle.cxx_hierarchy.specs.Classes.{bases_of, members_of};
ghost use Rattle.cxx_hierarchy.specs.Limits.{most_declared};
ghost use Rattle.path_plan.specs.declared.form.Form.TheVariants.{InFull};
ghost use Rattle.path_plan.specs.Plans.{backwards, upto, virtual_order};
ghost use Rattle.path_model.specs.States.{plan_bodies, member_init, is_init};
ghost use Rattle.code_blocks.specs.Items.{Backwards as BackwardsWay, Forwards as ForwardsWay, shared_base_items, base_items, body_items, member_items, built_items, ended_items, items_of};
ghost use Rattle.code_blocks.specs.invariants.ItemCodes.{item_codes, items_in_turn, from_the_end, ArePlans};

use code_ops::routines::Course;
use cxx_hierarchy::{Base, ClassId, FieldType, Hierarchy, Member};
use cxx_program::{Owner, TypedProgram};
use foundation::{NoMemory, Sequence};
use path_bodies::BodyIndex;
use path_numbers::Numbers;
use path_plan::Form;
use std::alloc::Global;

/// An event of the part itself; an initializer sets the member of a number.
#[derive(Clone, Copy, Debug, PartialEq, Eq)]
pub enum Kind {
    AtBegin,
    AtReady,
    AtInit(u32),
    AtBody,
    AtDone,
    AtEnding,
    AtBases,
    AtEnd,
}

/// Elements from the first to the last, or back.
#[derive(Clone, Copy, Debug, PartialEq, Eq)]
pub enum Way {
    Forwards,
    Backwards,
}

/// An own event, a virtual base, a direct base that is not virtual, or all elements of a member, with its number, its class and how
/// many there are.
#[derive(Clone, Copy, Debug, PartialEq, Eq)]
pub enum Item {
    Does(Kind),
    Shares(ClassId),
    Inherits(ClassId),
    Holds(Way, u32, ClassId, u32),
}

/// A plan, or what is left of it.
pub type ItemList = Sequence<Item>;

/// What the plans of classes are found by: the classes, the bodies of the program, and the order of virtual bases.
#[derive(Drop)]
pub struct Plans<'a> {
    pub alloc: Global,
    pub h: &'a Hierarchy,
    pub program: &'a TypedProgram,
    pub index: &'a BodyIndex,
    pub orders: &'a Numbers,
}

/// Puts the virtual bases of a complete object behind other items.
fn push_shared(list: &mut ItemList, form: Form, order: &[ClassId]) -> Result<(), NoMemory>
    ensures { OnOk result (list.new ≡ list.old ++ item_codes (shared_base_items form order.now)) }
{
    match form {
        Form::AsBase => {}
        Form::InFull => push_each(list, order)?,
    }
    Ok(())
}

/// Puts virtual bases behind other items.
fn push_each(list: &mut ItemList, order: &[ClassId]) -> Result<(), NoMemory>
    ensures { OnOk result (list.new ≡ list.old ++ item_codes (shared_base_items InFull order.now)) }
{
    for v in order {
        list.push(Item::Shares(*v))?;
    }
    Ok(())
}

/// Puts virtual bases behind other items, the last one first.
fn push_each_back(list: &mut ItemList, order: &[ClassId]) -> Result<(), NoMemory>
    ensures { OnOk result (list.new ≡ list.old ++ item_codes (shared_base_items InFull (backwards order.now))) }
{
    match order {
        [] => {}
        [v, rest @ ..] => {
            push_each_back(list, rest)?;
            list.push(Item::Shares(*v))?;
        }
    }
    Ok(())
}

/// Puts the virtual bases of a complete object behind other items, the last one first.
fn push_shared_back(list: &mut ItemList, form: Form, order: &[ClassId]) -> Result<(), NoMemory>
    ensures { OnOk result (list.new ≡ list.old ++ item_codes (shared_base_items form (backwards order.now))) }
{
    match form {
        Form::AsBase => {}
        Form::InFull => push_each_back(list, order)?,
    }
    Ok(())
}

/// Puts a direct base behind other items, unless it is virtual.
fn push_base(list: &mut ItemList, base: &Base<ClassId>) -> Result<(), NoMemory>
    ensures { OnOk result (list.new ≡ list.old ++ item_codes (base_items base.now)) }
{
    if !base.is_virtual {
        list.push(Item::Inherits(base.class))?;
    }
    Ok(())
}

/// Puts the direct bases that are not virtual behind other items.
fn push_bases(list: &mut ItemList, bases: &[Base<ClassId>]) -> Result<(), NoMemory>
    ensures { OnOk result (list.new ≡ list.old ++ item_codes (flat_map base_items bases.now)) }
{
    match bases {
        [] => {}
        [base, rest @ ..] => {
            push_base(list, base)?;
            push_bases(list, rest)?;
        }
    }
    Ok(())
}

/// Puts the direct bases that are not virtual behind other items, the last one first.
fn push_bases_back(list: &mut ItemList, bases: &[Base<ClassId>]) -> Result<(), NoMemory>
    ensures { OnOk result (list.new ≡ list.old ++ item_codes (flat_map base_items (backwards bases.now))) }
{
    match bases {
        [] => {}
        [base, rest @ ..] => {
            push_bases_back(list, rest)?;
            push_base(list, base)?;
        }
    }
    Ok(())
}

/// Puts a member behind other items: all elements of class type, or an initializer where one is set.
fn push_member(
    list: &mut ItemList,
    is_set: bool,
    way: Way,
    m: u32,
    member: &Member<ClassId>,
) -> Result<(), NoMemory>
    ensures { OnOk result (list.new ≡ list.old ++ item_codes (member_items is_set way m (Some member.now))) }
{
    match member.ty {
        FieldType::Object(d) => list.push(Item::Holds(way, m, d, member.elements()))?,
        FieldType::Value(_) => {
            if is_set {
                list.push(Item::Does(Kind::AtInit(m)))?;
            }
        }
    }
    Ok(())
}

/// Puts the members of a class behind other items, from number `m` on.
fn push_members(
    list: &mut ItemList,
    plans: &Plans,
    c: ClassId,
    m: u32,
    members: &[Member<ClassId>],
) -> Result<(), NoMemory>
    requires plans { ArePlans plans.now.h.now plans.now.program.now plans.now.index.now plans.now.orders.now }
    requires few { m + length members.now ≤ most_declared }
    ensures { OnOk result (list.new ≡ list.old ++ item_codes (items_in_turn (λ k. member_items (is_init (member_init plans.now.program.now c k)) ForwardsWay k) m members.now)) }
{
    match members {
        [] => {}
        [member, rest @ ..] => {
            let is_set = plans.index.has_initializer(c, m);
            push_member(list, is_set, Way::Forwards, m, member)?;
            push_members(list, plans, c, m + 1, rest)?;
        }
    }
    Ok(())
}

/// Puts the members of class type behind other items, from the last one back to number `m`.
fn push_members_back(
    list: &mut ItemList,
    m: u32,
    members: &[Member<ClassId>],
) -> Result<(), NoMemory>
    requires { m + length members.now ≤ most_declared }
    ensures { OnOk result (list.new ≡ list.old ++ item_codes (from_the_end (λ k. member_items false BackwardsWay k) m members.now)) }
{
    match members {
        [] => {}
        [member, rest @ ..] => {
            push_members_back(list, m + 1, rest)?;
            push_member(list, false, Way::Backwards, m, member)?;
        }
    }
    Ok(())
}

/// Puts the body behind other items, where it is declared.
fn push_body(list: &mut ItemList, is_declared: bool) -> Result<(), NoMemory>
    ensures { OnOk result (list.new ≡ list.old ++ item_codes (body_items is_declared)) }
{
    if is_declared {
        list.push(Item::Does(Kind::AtBody))?;
    }
    Ok(())
}

impl Plans<'_> {
    /// Puts the members of a class behind other items.
    fn push_all_members(&self, list: &mut ItemList, c: ClassId) -> Result<(), NoMemory>
        requires plans { ArePlans self.now.h.now self.now.program.now self.now.index.now self.now.orders.now }
        requires known { c.0 < length self.now.h.now }
        ensures { OnOk result (list.new ≡ list.old ++ item_codes (flat_map (λ m. member_items (is_init (member_init self.now.program.now c m)) ForwardsWay m (slice_get (members_of self.now.h.now c) m)) (upto (length (members_of self.now.h.now c))))) }
    {
        push_members(list, self, c, 0, self.h.class(c).members.as_slice())?;
        Ok(())
    }

    /// Puts the members of class type behind other items, the last one first.
    fn push_all_back(&self, list: &mut ItemList, c: ClassId) -> Result<(), NoMemory>
        requires plans { ArePlans self.now.h.now self.now.program.now self.now.index.now self.now.orders.now }
        requires known { c.0 < length self.now.h.now }
        ensures { OnOk result (list.new ≡ list.old ++ item_codes (flat_map (λ m. member_items false BackwardsWay m (slice_get (members_of self.now.h.now c) m)) (backwards (upto (length (members_of self.now.h.now c)))))) }
    {
        push_members_back(list, 0, self.h.class(c).members.as_slice())?;
        Ok(())
    }

    /// Puts the virtual bases of a complete object and the direct bases behind other items.
    fn push_all_bases(&self, list: &mut ItemList, form: Form, c: ClassId) -> Result<(), NoMemory>
        requires plans { ArePlans self.now.h.now self.now.program.now self.now.index.now self.now.orders.now }
        requires known { c.0 < length self.now.h.now }
        ensures { OnOk result (list.new ≡ list.old ++ item_codes (shared_base_items form (virtual_order self.now.h.now c) ++ flat_map base_items (bases_of self.now.h.now c))) }
    {
        push_shared(list, form, self.orders.virtual_bases(c))?;
        push_bases(list, self.h.class(c).bases.as_slice())?;
        Ok(())
    }

    /// Puts the direct bases and the virtual bases of a complete object behind other items, the last one first.
    fn push_bases_end(&self, list: &mut ItemList, form: Form, c: ClassId) -> Result<(), NoMemory>
        requires plans { ArePlans self.now.h.now self.now.program.now self.now.index.now self.now.orders.now }
        requires known { c.0 < length self.now.h.now }
        ensures { OnOk result (list.new ≡ list.old ++ item_codes (flat_map base_items (backwards (bases_of self.now.h.now c)) ++ shared_base_items form (backwards (virtual_order self.now.h.now c)))) }
    {
        push_bases_back(list, self.h.class(c).bases.as_slice())?;
        push_shared_back(list, form, self.orders.virtual_bases(c))?;
        Ok(())
    }

    /// The construction of a class (ISO C++03 12.6.2 p5).
    fn built(&self, form: Form, c: ClassId) -> Result<ItemList, NoMemory>
        requires plans { ArePlans self.now.h.now self.now.program.now self.now.index.now self.now.orders.now }
        requires known { c.0 < length self.now.h.now }
        ensures { IfOk result (λ list. list ≡ item_codes (built_items self.now.h.now (plan_bodies self.now.program.now) form c)) }
    {
        let mut list = Sequence::new(self.alloc);
        list.push(Item::Does(Kind::AtBegin))?;
        self.push_all_bases(&mut list, form, c)?;
        list.push(Item::Does(Kind::AtReady))?;
        self.push_all_members(&mut list, c)?;
        push_body(&mut list, self.index.has_body(Owner::Constructor(c)))?;
        list.push(Item::Does(Kind::AtDone))?;
        Ok(list)
    }

    /// The destruction of a class (ISO C++03 12.4 p6).
    fn ended(&self, form: Form, c: ClassId) -> Result<ItemList, NoMemory>
        requires plans { ArePlans self.now.h.now self.now.program.now self.now.index.now self.now.orders.now }
        requires known { c.0 < length self.now.h.now }
        ensures { IfOk result (λ list. list ≡ item_codes (ended_items self.now.h.now (plan_bodies self.now.program.now) form c)) }
    {
        let mut list = Sequence::new(self.alloc);
        list.push(Item::Does(Kind::AtEnding))?;
        push_body(&mut list, self.index.has_body(Owner::Destructor(c)))?;
        self.push_all_back(&mut list, c)?;
        list.push(Item::Does(Kind::AtBases))?;
        self.push_bases_end(&mut list, form, c)?;
        list.push(Item::Does(Kind::AtEnd))?;
        Ok(list)
    }

    /// The plan of a class.
    ///
    /// Errors: want of memory.
    pub fn items(&self, course: Course, form: Form, c: ClassId) -> Result<ItemList, NoMemory>
        requires plans { ArePlans self.now.h.now self.now.program.now self.now.index.now self.now.orders.now }
        requires known { c.0 < length self.now.h.now }
        ensures { IfOk result (λ list. list ≡ item_codes (items_of self.now.h.now (plan_bodies self.now.program.now) course form c)) }
    {
        match course {
            Course::Constructs => self.built(form, c),
            Course::Destroys | Course::Deletes => self.ended(form, c),
        }
    }
}
