//! A whole source.

ghost use Rattle.std.specs.Prelude.{◌≡◌, ◌^◌, take, drop};
ghost use Rattle.cxx_overrider.specs.Overriders.{AreOverriders};
ghost use Rattle.cxx_resolve.specs.Stops.{Settles};
ghost use Rattle.cxx_resolve.specs.Programs.{HasFewStatements, program_of};

use crate::bodies::{bodies_of, main_of};
use crate::globals::{globals_of, types_of};
use cxx_expression::{Known, Returns, Setting};
use cxx_hierarchy::{Hierarchy, Stop};
use cxx_overrider::Overriders;
use cxx_program::TypedProgram;
use cxx_syntax::{Body, BodyList, SourceText};
use foundation::Sequence;
use std::alloc::Global;

/// The first n bodies, or all where there are fewer.
#[tactic(auto, using(std::proofs::lemmas::List::take_all))]
fn front_of(bodies: &BodyList, n: usize) -> &[Body]
    ensures { result.now ≡ take n bodies.now }
{
    let all = bodies.as_slice();
    if n < all.len() {
        let (front, _back) = all.split_at(n);
        return front;
    }
    all
}

/// The bodies behind the first n.
#[tactic(auto, using(std::proofs::lemmas::List::drop_all))]
fn back_of(bodies: &BodyList, n: usize) -> &[Body]
    ensures { result.now ≡ drop n bodies.now }
{
    let all = bodies.as_slice();
    if n < all.len() {
        let (_front, back) = all.split_at(n);
        return back;
    }
    &[]
}

/// The program of a source, over the classes of its records and their overriders.
///
/// Errors: the first refusal or limit. Globals come first, in source order: `Limit` L3 at the 1,025th, `DuplicateMember`,
/// `UnknownClass`. Then the bodies in source order, `main` at its place among them, in a constructor its initializers
/// (`BadInitializer`) before its statements. Of a statement the rule with the least number counts, and of it the first place;
/// `Limit` L3 comes at the 257th declaration of a local. Or want of memory.
#[tactic(auto, unfolding(crate::specs::Programs::program_of))]
pub fn resolve(
    alloc: Global,
    h: &Hierarchy,
    o: &Overriders,
    source: &SourceText,
) -> Result<TypedProgram, Stop>
    requires made { AreOverriders h.now o.now }
    requires few { HasFewStatements (2 ^ 32) source.now }
    ensures { Settles result (program_of h.now source.now) }
{
    let mut known = Known::new(alloc);
    let globals = globals_of(alloc, h, source.globals.as_slice())?;
    let mut setting = Setting {
        globals,
        this_class: None,
        returns: Returns::Nowhere,
    };
    let front = front_of(&source.bodies, source.main_place);
    let back = back_of(&source.bodies, source.main_place);
    let mut bodies = Sequence::new(alloc);
    bodies_of(alloc, h, o, &mut known, &mut setting, front, &mut bodies)?;
    let main = main_of(alloc, h, o, &mut known, &mut setting, &source.main)?;
    bodies_of(alloc, h, o, &mut known, &mut setting, back, &mut bodies)?;
    let globals = types_of(alloc, setting.globals.as_slice())?;
    Ok(TypedProgram {
        globals,
        bodies,
        main,
    })
}
