//! What comes next in a part under destruction: its construction backwards (ISO C++03 12.4 p6).

ghost use Rattle.std.specs.Prelude.{◌≡◌, ◌+◌, false};
ghost use Rattle.path_numbers.specs.Numbers.{AreClassNumbers};
ghost use Rattle.path_events.specs.declared.frame.Stage.TheVariants.{Shared, Bases, Members, Body};
ghost use Rattle.path_events.specs.invariants.Steps.{GivesNext, MayGiveNext, elements_at};

use crate::classes::{base_at, bases_of, class_at, member_at, members_of, order_of};
use crate::course::Course;
use crate::frame::{Stage, Step};
use crate::kids::{base_kid, element_kid, shared_kid};
use crate::plan::PlanEvent;
use cxx_hierarchy::{ClassId, FieldType, Hierarchy};
use cxx_program::Owner;
use path_plan::Form;

/// The virtual base before place j, and the end where there is none.
fn ended_shared(course: &Course, j: usize) -> Step
    requires { AreClassNumbers course.now.h.now course.now.numbers.now }
    ensures { GivesNext course.now false (Shared j) result }
{
    course.h.keeps();
    match course.frame.form {
        Form::AsBase => Step::Last(PlanEvent::End(course.frame.part)),
        Form::InFull => {
            let order = order_of(course.h, course.numbers, course.frame.part.class);
            let left = j.min(order.len());
            if left == 0 {
                return Step::Last(PlanEvent::End(course.frame.part));
            }
            let place = left - 1;
            let v = class_at(order, place);
            let kid = shared_kid(course.numbers, course.h, course.frame.part, place, v);
            Step::Open(kid, Form::AsBase, Stage::Shared(place as u16))
        }
    }
}

/// The direct base at place i, unless it is virtual.
fn ended_base(course: &Course, i: usize) -> Option<Step>
    requires { AreClassNumbers course.now.h.now course.now.numbers.now }
    ensures { MayGiveNext course.now false (Bases (i + 1)) (Bases i) result }
{
    course.h.keeps();
    match base_at(course.h, course.frame.part.class, i) {
        None => None,
        Some(base) => {
            if base.is_virtual {
                return None;
            }
            let kid = base_kid(course.numbers, course.h, course.frame.part, i, base);
            Some(Step::Open(kid, Form::AsBase, Stage::Bases(i as u16)))
        }
    }
}

/// The last base before place i, and behind them the virtual bases.
fn ended_bases(course: &Course, i: usize) -> Step
    requires { AreClassNumbers course.now.h.now course.now.numbers.now }
    ensures { GivesNext course.now false (Bases i) result }
{
    let mut left = i;
    while left > 0 {
        left -= 1;
        match ended_base(course, left) {
            Some(step) => return step,
            None => {}
        }
    }
    let left = order_of(course.h, course.numbers, course.frame.part.class).len();
    ended_shared(course, left)
}

/// The last of the i elements that are left of the member at place m.
fn ended_element(course: &Course, m: usize, i: u32) -> Option<Step>
    requires { AreClassNumbers course.now.h.now course.now.numbers.now }
    ensures { MayGiveNext course.now false (Members m i) (Members m 0) result }
{
    course.h.keeps();
    match member_at(course.h, course.frame.part.class, m) {
        None => None,
        Some(member) => match member.ty {
            FieldType::Value(_) => None,
            FieldType::Object(d) => {
                let left = i.min(member.elements());
                if left == 0 {
                    return None;
                }
                let element = left - 1;
                let kid = element_kid(
                    course.numbers,
                    course.h,
                    course.frame.part,
                    m,
                    member,
                    element,
                    d,
                );
                Some(Step::Open(kid, Form::InFull, Stage::Members(m as u16, element as u16)))
            }
        },
    }
}

/// How many elements the member at a place has.
fn elements_at(h: &Hierarchy, c: ClassId, m: usize) -> u32
    ensures { result ≡ elements_at h.now c m }
{
    match member_at(h, c, m) {
        None => 0,
        Some(member) => member.elements(),
    }
}

/// The last element of the member at place m, after it those of the members before, and behind them the bases.
fn ended_members(course: &Course, m: usize, i: u32) -> Step
    requires { AreClassNumbers course.now.h.now course.now.numbers.now }
    ensures { GivesNext course.now false (Members m i) result }
{
    course.h.keeps();
    match ended_element(course, m, i) {
        Some(step) => return step,
        None => {}
    }
    let mut left = m;
    while left > 0 {
        left -= 1;
        let elements = elements_at(course.h, course.frame.part.class, left);
        match ended_element(course, left, elements) {
            Some(step) => return step,
            None => {}
        }
    }
    let bases = bases_of(course.h, course.frame.part.class).len();
    Step::Event(
        PlanEvent::Bases(course.frame.part),
        Stage::Bases(bases as u16),
    )
}

/// The body of the destructor where it is declared, and else the members.
fn ended_body(course: &Course) -> Step
    requires { AreClassNumbers course.now.h.now course.now.numbers.now }
    ensures { GivesNext course.now false Body result }
{
    course.h.keeps();
    let members = members_of(course.h, course.frame.part.class).len();
    if course
        .index
        .has_body(Owner::Destructor(course.frame.part.class))
    {
        Step::Event(
            PlanEvent::Body(course.frame.part),
            Stage::Members(members as u16, 0),
        )
    } else {
        ended_members(course, members, 0)
    }
}

/// What comes next.
pub(crate) fn ended_step(course: &Course) -> Step
    requires { AreClassNumbers course.now.h.now course.now.numbers.now }
    ensures { GivesNext course.now false course.now.frame.stage result }
{
    match course.frame.stage {
        Stage::Body => ended_body(course),
        Stage::Members(m, i) => ended_members(course, m as usize, i as u32),
        Stage::Bases(i) => ended_bases(course, i as usize),
        Stage::Shared(j) => ended_shared(course, j as usize),
        Stage::Last => Step::Last(PlanEvent::End(course.frame.part)),
    }
}
