//! What comes next in a part under construction (ISO C++03 12.6.2 p5).

ghost use Rattle.std.specs.Prelude.{◌≡◌, ◌+◌, Some, true, slice_get};
ghost use Rattle.cxx_hierarchy.specs.Classes.{members_of};
ghost use Rattle.path_numbers.specs.Numbers.{AreClassNumbers};
ghost use Rattle.path_events.specs.declared.frame.Stage.TheVariants.{Shared, Bases, Members, Body};
ghost use Rattle.path_events.specs.invariants.Steps.{GivesNext, MayGiveNext};

use crate::classes::{base_at, bases_of, member_at, members_of, order_of};
use crate::course::Course;
use crate::frame::{Stage, Step};
use crate::kids::{base_kid, element_kid, shared_kid};
use crate::plan::PlanEvent;
use cxx_hierarchy::{ClassId, FieldType, Member};
use cxx_program::Owner;
use path_plan::Form;

/// The virtual base at place j, where the part is a complete object and has one there.
fn built_shared(course: &Course, j: usize) -> Option<Step>
    requires { AreClassNumbers course.now.h.now course.now.numbers.now }
    ensures { MayGiveNext course.now true (Shared j) (Bases 0) result }
{
    course.h.keeps();
    match course.frame.form {
        Form::AsBase => None,
        Form::InFull => match order_of(course.h, course.numbers, course.frame.part.class).get(j) {
            None => None,
            Some(v) => {
                let kid = shared_kid(course.numbers, course.h, course.frame.part, j, *v);
                Some(Step::Open(kid, Form::AsBase, Stage::Shared((j + 1) as u16)))
            }
        },
    }
}

/// The direct base at place i, unless it is virtual.
fn built_base(course: &Course, i: usize) -> Option<Step>
    requires { AreClassNumbers course.now.h.now course.now.numbers.now }
    ensures { MayGiveNext course.now true (Bases i) (Bases (i + 1)) result }
{
    course.h.keeps();
    match base_at(course.h, course.frame.part.class, i) {
        None => None,
        Some(base) => {
            if base.is_virtual {
                return None;
            }
            let kid = base_kid(course.numbers, course.h, course.frame.part, i, base);
            Some(Step::Open(kid, Form::AsBase, Stage::Bases((i + 1) as u16)))
        }
    }
}

/// The first base from place i on, and behind them that the part is ready.
fn built_bases(course: &Course, i: usize) -> Step
    requires { AreClassNumbers course.now.h.now course.now.numbers.now }
    ensures { GivesNext course.now true (Bases i) result }
{
    for place in i..bases_of(course.h, course.frame.part.class).len() {
        match built_base(course, place) {
            Some(step) => return step,
            None => {}
        }
    }
    Step::Event(PlanEvent::Ready(course.frame.part), Stage::Members(0, 0))
}

/// The element of a member of class type at place i, or the initializer of a member that is a number or a pointer.
fn member_step(course: &Course, m: usize, member: &Member<ClassId>, i: u32) -> Option<Step>
    requires numbers { AreClassNumbers course.now.h.now course.now.numbers.now }
    requires listed { slice_get (members_of course.now.h.now course.now.frame.part.class) m ≡ Some member.now }
    ensures { MayGiveNext course.now true (Members m i) (Members (m + 1) 0) result }
{
    course.h.keeps();
    match member.ty {
        FieldType::Value(_) => {
            if !course
                .index
                .has_initializer(course.frame.part.class, m as u32)
            {
                return None;
            }
            let event = PlanEvent::Init(course.frame.part, m as u32);
            Some(Step::Event(event, Stage::Members((m + 1) as u16, 0)))
        }
        FieldType::Object(d) => {
            if i >= member.elements() {
                return None;
            }
            let kid = element_kid(course.numbers, course.h, course.frame.part, m, member, i, d);
            Some(Step::Open(kid, Form::InFull, Stage::Members(m as u16, (i + 1) as u16)))
        }
    }
}

/// The member at place m from its element i on.
fn built_member(course: &Course, m: usize, i: u32) -> Option<Step>
    requires { AreClassNumbers course.now.h.now course.now.numbers.now }
    ensures { MayGiveNext course.now true (Members m i) (Members (m + 1) 0) result }
{
    match member_at(course.h, course.frame.part.class, m) {
        None => None,
        Some(member) => member_step(course, m, member, i),
    }
}

/// The first member from place m on, the first of them from its element i on, and behind them the body.
fn built_members(course: &Course, m: usize, i: u32) -> Step
    requires { AreClassNumbers course.now.h.now course.now.numbers.now }
    ensures { GivesNext course.now true (Members m i) result }
{
    let mut element = i;
    for place in m..members_of(course.h, course.frame.part.class).len() {
        match built_member(course, place, element) {
            Some(step) => return step,
            None => element = 0,
        }
    }
    built_body(course)
}

/// The body of the constructor where it is declared, and else the end.
fn built_body(course: &Course) -> Step
    ensures { GivesNext course.now true Body result }
{
    if course
        .index
        .has_body(Owner::Constructor(course.frame.part.class))
    {
        Step::Event(PlanEvent::Body(course.frame.part), Stage::Last)
    } else {
        Step::Last(PlanEvent::Done(course.frame.part))
    }
}

/// What comes next.
pub(crate) fn built_step(course: &Course) -> Step
    requires { AreClassNumbers course.now.h.now course.now.numbers.now }
    ensures { GivesNext course.now true course.now.frame.stage result }
{
    match course.frame.stage {
        Stage::Shared(j) => match built_shared(course, j as usize) {
            Some(step) => step,
            None => built_bases(course, 0),
        },
        Stage::Bases(i) => built_bases(course, i as usize),
        Stage::Members(m, i) => built_members(course, m as usize, i as u32),
        Stage::Body => built_body(course),
        Stage::Last => Step::Last(PlanEvent::Done(course.frame.part)),
    }
}
