//! Bodies of classes, and `main`.

ghost use Rattle.std.specs.Prelude.{◌≡◌, ◌<◌, ◌^◌, [], ◌∷◌, All, None, Some, IfOk, OnOk, List};
ghost use Rattle.std.specs.Option.{option_copied};
ghost use Rattle.cxx_hierarchy.specs.declared.records.ClassId.{ClassId};
ghost use Rattle.cxx_hierarchy.specs.declared.records.Function.{Function};
ghost use Rattle.cxx_hierarchy.specs.declared.records.Param.{Param};
ghost use Rattle.cxx_overrider.specs.Overriders.{AreOverriders};
ghost use Rattle.cxx_syntax.specs.declared.source_text.Body.{Body};
ghost use Rattle.cxx_program.specs.declared.program.TypedBody.{TypedBody};
ghost use Rattle.cxx_expression.specs.invariants.Known.{Knows};
ghost use Rattle.cxx_resolve.specs.Stops.{Gives, Settles};
ghost use Rattle.cxx_resolve.specs.Turns.{given_in_turn};
ghost use Rattle.cxx_resolve.specs.Programs.{class_of_body, owner_of, function_by_owner, params_in, returns_in, first_draft, typed_body, main_setting, main_of, body_in, body_of, IsShort, IsShortMain};

use crate::blocks::statements;
use crate::body_site::BodySite;
use crate::draft::Draft;
use crate::initializers::{class_at, inits_of};
use crate::sizes::block_size;
use cxx_expression::{Entry, Known, Returns, Scene, Setting, copy_type, find_class};
use cxx_hierarchy::{
    ClassId, Function, Hierarchy, Name, Param, ReturnType, Scalar, Stop, ValueType,
};
use cxx_overrider::{FunctionId, Overriders};
use cxx_program::{Owner, TypedBody, TypedBodyList, TypedInitList};
use cxx_syntax::{Body, BodyOwner, BodyTree};
use foundation::{NoMemory, Sequence};
use std::alloc::Global;

/// The class of a body.
fn class_of_body(h: &Hierarchy, name: &Name) -> ClassId
    ensures { result ≡ class_of_body h.now name.now }
{
    // class 0 is never met: each body belongs to a record of the source, by `bodies_of_records` of cxx_readings
    find_class(h, name.as_slice()).unwrap_or(ClassId(0))
}

/// Whose body it is.
fn owner_of(c: ClassId, owner: BodyOwner) -> Owner
    ensures { result ≡ owner_of c owner }
{
    match owner {
        BodyOwner::Function(number) => Owner::Function(FunctionId {
            class: c,
            index: number,
        }),
        BodyOwner::Constructor => Owner::Constructor(c),
        BodyOwner::Destructor => Owner::Destructor(c),
    }
}

/// The function whose body it is, where it is that of a function.
fn function_in(h: &Hierarchy, c: ClassId, owner: BodyOwner) -> Option<&Function<ClassId>>
    ensures { option_copied result ≡ function_by_owner h.now c owner }
{
    match owner {
        BodyOwner::Function(number) => { class_at(h, c)?.functions.as_slice().get(number as usize) }
        BodyOwner::Constructor | BodyOwner::Destructor => None,
    }
}

/// The parameters of a function, where there is one.
fn params_in<'a>(function: Option<&'a Function<ClassId>>) -> &'a [Param<ClassId>]
    ensures { result.now ≡ params_in (option_copied function.entry) }
{
    match function {
        Some(function) => function.params.as_slice(),
        None => &[],
    }
}

/// What a `return` wants in the body of a function, or in another body.
fn returns_in(function: Option<&Function<ClassId>>) -> Returns
    ensures { result ≡ returns_in (option_copied function.entry) }
{
    match function {
        None => Returns::Nowhere,
        Some(function) => match &function.ret {
            ReturnType::Void => Returns::Nothing,
            ReturnType::Value(ty) => Returns::Value(copy_type(ty)),
        },
    }
}

/// What a body begins with: its parameters.
fn first_draft(alloc: Global, params: &[Param<ClassId>]) -> Result<Draft, NoMemory>
    ensures { IfOk result (λ draft. draft ≡ first_draft params.now) }
{
    let mut entries = Sequence::new(alloc);
    let mut types = Sequence::new(alloc);
    for (number, param) in params.iter().enumerate() {
        let name = Sequence::from_vec(Vec::from_slice(alloc, param.name.as_slice())?);
        let ty = copy_type(&param.ty);
        entries.push(Entry { name, number, ty })?;
        types.push(copy_type(&param.ty))?;
    }
    let scene = Scene {
        entries,
        start: 0,
        types,
        declared: 0,
    };
    let statements = Sequence::new(alloc);
    Ok(Draft { scene, statements })
}

/// The statements of a tree.
#[tactic(auto, unfolding(crate::specs::Programs::typed_body))]
fn typed_body(
    body: &BodySite,
    known: &mut Known,
    owner: Owner,
    params: &[Param<ClassId>],
    inits: TypedInitList,
    tree: &BodyTree,
) -> Result<TypedBody, Stop>
    requires made { AreOverriders body.now.h.now body.now.overriders.now }
    requires knows { Knows body.now.h.now known.old }
    requires short { IsShort (2 ^ 32) tree.now }
    ensures body { Settles result (typed_body body.now.h.now body.now.setting.now owner params.now inits tree.now) }
    ensures knows { OnOk result (Knows body.now.h.now known.new) }
{
    let mut draft = first_draft(body.alloc, params)?;
    let follow = block_size(tree);
    statements(body, known, tree, 0, follow, &mut draft)?;
    let Draft { scene, statements } = draft;
    Ok(TypedBody {
        owner,
        locals: scene.types,
        inits,
        statements,
        line: tree.line,
        close_line: tree.close_line,
    })
}

/// A body in a class, of a function where it is one: the initializers before the statements.
#[tactic(auto, unfolding(crate::specs::Programs::body_in))]
fn body_in(
    alloc: Global,
    h: &Hierarchy,
    o: &Overriders,
    known: &mut Known,
    setting: &mut Setting,
    c: ClassId,
    function: Option<&Function<ClassId>>,
    body: &Body,
) -> Result<TypedBody, Stop>
    requires made { AreOverriders h.now o.now }
    requires knows { Knows h.now known.old }
    requires short { IsShort (2 ^ 32) body.now.tree }
    ensures body { Settles result (body_in h.now setting.old.globals c (option_copied function.entry) body.now) }
    ensures knows { OnOk result (Knows h.now known.new) }
    ensures globals { setting.new.globals ≡ setting.old.globals }
{
    setting.this_class = Some(c);
    setting.returns = returns_in(function);
    let inits = inits_of(alloc, h, c, body.inits.as_slice())?;
    let owner = owner_of(c, body.owner);
    let params = params_in(function);
    let site = BodySite {
        alloc,
        h,
        overriders: o,
        setting,
    };
    typed_body(&site, known, owner, params, inits, &body.tree)
}

/// The bodies of a list in turn, behind those that are there.
pub(crate) fn bodies_of(
    alloc: Global,
    h: &Hierarchy,
    o: &Overriders,
    known: &mut Known,
    setting: &mut Setting,
    bodies: &[Body],
    typed: &mut TypedBodyList,
) -> Result<(), Stop>
    requires made { AreOverriders h.now o.now }
    requires knows { Knows h.now known.old }
    requires short { All (λ (b : Body). IsShort (2 ^ 32) b.tree) bodies.now }
    ensures bodies { Gives result typed.new (given_in_turn (body_of h.now setting.old.globals) typed.old bodies.now) }
    ensures knows { OnOk result (Knows h.now known.new) }
    ensures globals { setting.new.globals ≡ setting.old.globals }
{
    for body in bodies {
        let c = class_of_body(h, &body.class);
        let function = function_in(h, c, body.owner);
        let one = body_in(alloc, h, o, known, setting, c, function, body)?;
        typed.push(one)?;
    }
    Ok(())
}

/// `main`, where there is one.
#[tactic(auto, unfolding(crate::specs::Programs::main_tree))]
pub(crate) fn main_of(
    alloc: Global,
    h: &Hierarchy,
    o: &Overriders,
    known: &mut Known,
    setting: &mut Setting,
    main: &Option<BodyTree>,
) -> Result<Option<TypedBody>, Stop>
    requires made { AreOverriders h.now o.now }
    requires knows { Knows h.now known.old }
    requires short { IsShortMain (2 ^ 32) main.now }
    ensures main { Settles result (main_of h.now setting.old.globals main.now) }
    ensures knows { OnOk result (Knows h.now known.new) }
    ensures globals { setting.new.globals ≡ setting.old.globals }
{
    let Some(tree) = main else {
        return Ok(None);
    };
    setting.this_class = None;
    setting.returns = Returns::Value(ValueType::Number(Scalar::Int));
    let inits = Sequence::new(alloc);
    let site = BodySite {
        alloc,
        h,
        overriders: o,
        setting,
    };
    let body = typed_body(&site, known, Owner::Main, &[], inits, tree)?;
    Ok(Some(body))
}
