//! The class pass: the first refusal or limit that a list of class records meets.

ghost use Rattle.std.specs.Option.{option_copied};
ghost use Rattle.std.specs.Str.{bytes_eq};
ghost use Rattle.std.specs.Prelude.{IfOk, OnOk, List, ◌∷◌, unwrap_or, ◌≡◌, ◌≤◌, ◌<◌, ◌++◌, [], if◌then◌else◌, take, length, slice_get, Some, None, All};
ghost use Rattle.std.specs.List.{list_any};
ghost use Rattle.cxx_hierarchy.specs.declared.records.PartAt.{PartAt};
ghost use Rattle.cxx_hierarchy.specs.declared.records.FieldType.TheVariants.{Value as ValueField};
ghost use Rattle.cxx_hierarchy.specs.declared.stop.Stop.{Stop};
ghost use Rattle.cxx_hierarchy.specs.declared.stop.Rule.{Rule};
ghost use Rattle.cxx_hierarchy.specs.NameTables.{Numbers, HoldsNames, is_in};
ghost use Rattle.cxx_hierarchy.specs.ClassPass.{fault_if, known_faults, complete_faults, value_faults, field_faults, return_faults, base_faults, param_faults, member_faults, function_faults, part_faults, content_faults, class_faults, faults_of, in_turn, is_bad_count, most_width, is_bad_width, is_repeat, is_second, part_name, names_of, names_taken, StopsAtFirst, IsInOrder};
ghost use Rattle.cxx_hierarchy.specs.Orders.{has_kind, is_constructor, is_destructor};
ghost use Rattle.cxx_hierarchy.specs.Scalars.{most_bits};

use crate::names::NameTable;
use crate::records::{
    Base, ClassRec, FieldType, Function, Member, Name, Param, PartAt, PartKind, ReturnType, Scalar,
    ValueType,
};
use crate::stop::{LimitNo, Rule, Stop};
use foundation::NoMemory;
use std::alloc::Global;

/// The most classes of a source.
pub const MOST_CLASSES: usize = 1024;

/// The most direct bases of a class.
const MOST_BASES: usize = 64;

/// The most parts that a class declares.
const MOST_DECLARED: usize = 1024;

/// The most parameters of a function.
const MOST_PARAMETERS: usize = 16;

/// The most elements of an array.
pub const MOST_ELEMENTS: u32 = 4096;

/// The classes of a source, with their names' table, and how many of them stand before the class that is checked.
#[derive(Drop)]
pub(crate) struct Scope<'a> {
    pub(crate) records: &'a [ClassRec<Name>],
    pub(crate) table: &'a NameTable,
    pub(crate) earlier: usize,
}

fn stop_if(condition: bool, stop: Stop) -> Result<(), Stop>
    ensures { StopsAtFirst (fault_if condition stop) result }
{
    if condition { Err(stop) } else { Ok(()) }
}

/// Whether the source defines a class of this name.
fn is_known(scope: &Scope, class: &Name) -> bool
    requires { Numbers scope.now.table.now (names_of scope.now.records.now) }
    ensures { result ≡ is_in (names_of scope.now.records.now) class.now }
{
    scope.table.find(class.as_slice()).is_some()
}

/// Whether it defines one before the class that is checked.
fn is_complete(scope: &Scope, class: &Name) -> bool
    requires { Numbers scope.now.table.now (names_of scope.now.records.now) }
    ensures { result ≡ is_in (names_of (take scope.now.earlier scope.now.records.now)) class.now }
{
    match scope.table.find(class.as_slice()) {
        Some(number) => number < scope.earlier,
        None => false,
    }
}

fn check_known(scope: &Scope, at: u32, class: &Name) -> Result<(), Stop>
    requires { Numbers scope.now.table.now (names_of scope.now.records.now) }
    ensures { StopsAtFirst (known_faults (names_of scope.now.records.now) at class.now) result }
{
    stop_if(
        !is_known(scope, class),
        Stop::Refused(Rule::UnknownClass, at),
    )
}

fn check_complete(scope: &Scope, at: u32, class: &Name) -> Result<(), Stop>
    requires { Numbers scope.now.table.now (names_of scope.now.records.now) }
    ensures { StopsAtFirst (complete_faults (names_of scope.now.records.now) (names_of (take scope.now.earlier scope.now.records.now)) at class.now) result }
{
    check_known(scope, at, class)?;
    stop_if(
        !is_complete(scope, class),
        Stop::Refused(Rule::IncompleteClass, at),
    )
}

fn is_base(before: &[Base<Name>], class: &Name) -> bool
    ensures { result ≡ list_any (λ b. bytes_eq class.now b.class) before.now }
{
    before
        .iter()
        .any(|base| class.as_slice() == base.class.as_slice())
}

fn check_base(scope: &Scope, before: &[Base<Name>], base: &Base<Name>) -> Result<(), Stop>
    requires { Numbers scope.now.table.now (names_of scope.now.records.now) }
    ensures { StopsAtFirst (base_faults (names_of scope.now.records.now) (names_of (take scope.now.earlier scope.now.records.now)) before.now base.now) result }
{
    stop_if(before.len() >= MOST_BASES, Stop::Limit(LimitNo::L3))?;
    check_complete(scope, base.at, &base.class)?;
    stop_if(
        is_base(before, &base.class),
        Stop::Refused(Rule::DuplicateBase, base.at),
    )
}

fn check_bases(scope: &Scope, bases: &[Base<Name>]) -> Result<(), Stop>
    requires { Numbers scope.now.table.now (names_of scope.now.records.now) }
    ensures { StopsAtFirst (in_turn (base_faults (names_of scope.now.records.now) (names_of (take scope.now.earlier scope.now.records.now))) [] bases.now) result }
{
    for (number, base) in bases.iter().enumerate() {
        check_base(scope, &bases[..number], base)?;
    }
    Ok(())
}

fn check_value(scope: &Scope, at: u32, ty: &ValueType<Name>) -> Result<(), Stop>
    requires { Numbers scope.now.table.now (names_of scope.now.records.now) }
    ensures { StopsAtFirst (value_faults (names_of scope.now.records.now) at ty.now) result }
{
    match ty {
        ValueType::Number(_) => Ok(()),
        ValueType::Pointer(class) => check_known(scope, at, class),
    }
}

fn check_field(scope: &Scope, at: u32, ty: &FieldType<Name>) -> Result<(), Stop>
    requires { Numbers scope.now.table.now (names_of scope.now.records.now) }
    ensures { StopsAtFirst (field_faults (names_of scope.now.records.now) (names_of (take scope.now.earlier scope.now.records.now)) at ty.now) result }
{
    match ty {
        FieldType::Value(ty) => check_value(scope, at, ty),
        FieldType::Object(class) => check_complete(scope, at, class),
    }
}

fn check_return(scope: &Scope, at: u32, ty: &ReturnType<Name>) -> Result<(), Stop>
    requires { Numbers scope.now.table.now (names_of scope.now.records.now) }
    ensures { StopsAtFirst (return_faults (names_of scope.now.records.now) at ty.now) result }
{
    match ty {
        ReturnType::Void => Ok(()),
        ReturnType::Value(ty) => check_value(scope, at, ty),
    }
}

fn is_param(before: &[Param<Name>], name: &Name) -> bool
    ensures { result ≡ list_any (λ p. bytes_eq name.now p.name) before.now }
{
    before
        .iter()
        .any(|param| name.as_slice() == param.name.as_slice())
}

fn check_param(scope: &Scope, before: &[Param<Name>], param: &Param<Name>) -> Result<(), Stop>
    requires { Numbers scope.now.table.now (names_of scope.now.records.now) }
    ensures { StopsAtFirst (param_faults (names_of scope.now.records.now) before.now param.now) result }
{
    stop_if(before.len() >= MOST_PARAMETERS, Stop::Limit(LimitNo::L3))?;
    check_value(scope, param.ty_at, &param.ty)?;
    stop_if(
        is_param(before, &param.name),
        Stop::Refused(Rule::DuplicateMember, param.at),
    )
}

fn check_params(scope: &Scope, params: &[Param<Name>]) -> Result<(), Stop>
    requires { Numbers scope.now.table.now (names_of scope.now.records.now) }
    ensures { StopsAtFirst (in_turn (param_faults (names_of scope.now.records.now)) [] params.now) result }
{
    for (number, param) in params.iter().enumerate() {
        check_param(scope, &params[..number], param)?;
    }
    Ok(())
}

fn is_bad(count: Option<u32>) -> bool
    ensures { result ≡ is_bad_count count }
{
    match count {
        Some(count) => count == 0 || count > MOST_ELEMENTS,
        None => false,
    }
}

// How many bits a bit-field of the type has at most (ISO C++03 9.6).
fn most_bits(ty: Scalar) -> u32
    ensures { result ≡ most_bits ty }
{
    match ty {
        Scalar::Bool => 1,
        Scalar::Char | Scalar::SChar | Scalar::UChar => 8,
        Scalar::Short | Scalar::UShort => 16,
        Scalar::Int | Scalar::UInt => 32,
        Scalar::Long | Scalar::ULong | Scalar::LongLong | Scalar::ULongLong => 64,
    }
}

// The same of a value, 0 for a pointer.
fn value_width(ty: &ValueType<Name>) -> u32
    ensures { result ≡ most_width None (ValueField ty.now) }
{
    match ty {
        ValueType::Number(ty) => most_bits(*ty),
        ValueType::Pointer(_) => 0,
    }
}

// The same of a field that is no array, 0 for an object.
fn field_width(ty: &FieldType<Name>) -> u32
    ensures { result ≡ most_width None ty.now }
{
    match ty {
        FieldType::Value(ty) => value_width(ty),
        FieldType::Object(_) => 0,
    }
}

// The same of a field, 0 for an array.
fn most_width(count: Option<u32>, ty: &FieldType<Name>) -> u32
    ensures { result ≡ most_width count ty.now }
{
    match count {
        Some(_) => 0,
        None => field_width(ty),
    }
}

fn is_bad_width(most: u32, width: Option<u32>) -> bool
    ensures { result ≡ is_bad_width most width }
{
    match width {
        Some(width) => width == 0 || width > most,
        None => false,
    }
}

fn check_width(member: &Member<Name>) -> Result<(), Stop>
    ensures { StopsAtFirst (fault_if (is_bad_width (most_width member.now.count member.now.ty) member.now.width) (Stop.Refused Rule.BadWidth member.now.width_at)) result }
{
    let most = most_width(member.count, &member.ty);
    let is_bad = is_bad_width(most, member.width);
    stop_if(is_bad, Stop::Refused(Rule::BadWidth, member.width_at))
}

fn check_member(scope: &Scope, at: u32, member: Option<&Member<Name>>) -> Result<(), Stop>
    requires { Numbers scope.now.table.now (names_of scope.now.records.now) }
    ensures { StopsAtFirst (member_faults (names_of scope.now.records.now) (names_of (take scope.now.earlier scope.now.records.now)) at (option_copied member.entry)) result }
{
    match member {
        Some(member) => {
            check_field(scope, at, &member.ty)?;
            stop_if(is_bad(member.count), Stop::Limit(LimitNo::L4))?;
            check_width(member)
        }
        // never met: the order names the members by their numbers, by `IsInOrder` (`build`)
        None => Ok(()),
    }
}

fn check_function(scope: &Scope, at: u32, function: Option<&Function<Name>>) -> Result<(), Stop>
    requires { Numbers scope.now.table.now (names_of scope.now.records.now) }
    ensures { StopsAtFirst (function_faults (names_of scope.now.records.now) at (option_copied function.entry)) result }
{
    match function {
        Some(function) => {
            check_return(scope, at, &function.ret)?;
            check_params(scope, function.params.as_slice())
        }
        // never met: the order names the functions by their numbers, by `IsInOrder` (`build`)
        None => Ok(()),
    }
}

/// The name of a field or a function; a constructor or a destructor has none of its own.
fn name_of<'a>(definition: &'a ClassRec<Name>, part: &PartAt) -> Option<&'a Name>
    ensures { option_copied result ≡ part_name definition.now part.now }
{
    match part.kind {
        PartKind::Member => match definition.members.as_slice().get(part.number as usize) {
            Some(member) => Some(&member.name),
            None => None,
        },
        PartKind::Function => match definition.functions.as_slice().get(part.number as usize) {
            Some(function) => Some(&function.name),
            None => None,
        },
        PartKind::Constructor | PartKind::Destructor => None,
    }
}

fn has_constructor(before: &[PartAt]) -> bool
    ensures { result ≡ has_kind is_constructor before.now }
{
    before
        .iter()
        .any(|part| matches!(part.kind, PartKind::Constructor))
}

fn has_destructor(before: &[PartAt]) -> bool
    ensures { result ≡ has_kind is_destructor before.now }
{
    before
        .iter()
        .any(|part| matches!(part.kind, PartKind::Destructor))
}

fn is_second_of(before: &[PartAt], kind: PartKind) -> bool
    ensures { result ≡ is_second before.now kind }
{
    match kind {
        PartKind::Member | PartKind::Function => false,
        PartKind::Constructor => has_constructor(before),
        PartKind::Destructor => has_destructor(before),
    }
}

fn is_taken(
    taken: &NameTable,
    definition: &ClassRec<Name>,
    before: &[PartAt],
    part: &PartAt,
) -> bool
    requires { HoldsNames taken.now (names_taken definition.now before.now) }
    ensures { result ≡ is_repeat definition.now before.now part.now }
{
    let is_named = match name_of(definition, part) {
        Some(name) => taken.find(name.as_slice()).is_some(),
        None => false,
    };
    is_named || is_second_of(before, part.kind)
}

fn check_content(scope: &Scope, definition: &ClassRec<Name>, part: &PartAt) -> Result<(), Stop>
    requires { Numbers scope.now.table.now (names_of scope.now.records.now) }
    ensures { StopsAtFirst (content_faults (names_of scope.now.records.now) (names_of (take scope.now.earlier scope.now.records.now)) definition.now (unwrap_or part.now.ty_at 0) part.now.kind part.now.number) result }
{
    let at = part.ty_at.unwrap_or(0);
    let number = part.number as usize;
    match part.kind {
        PartKind::Member => check_member(scope, at, definition.members.as_slice().get(number)),
        PartKind::Function => check_function(
            scope,
            at,
            definition.functions.as_slice().get(number),
        ),
        PartKind::Constructor | PartKind::Destructor => Ok(()),
    }
}

fn check_part(
    scope: &Scope,
    definition: &ClassRec<Name>,
    taken: &NameTable,
    before: &[PartAt],
    part: &PartAt,
) -> Result<(), Stop>
    requires numbers { Numbers scope.now.table.now (names_of scope.now.records.now) }
    requires taken { HoldsNames taken.now (names_taken definition.now before.now) }
    ensures { StopsAtFirst (part_faults (names_of scope.now.records.now) (names_of (take scope.now.earlier scope.now.records.now)) definition.now before.now part.now) result }
{
    stop_if(before.len() >= MOST_DECLARED, Stop::Limit(LimitNo::L3))?;
    stop_if(
        is_taken(taken, definition, before, part),
        Stop::Refused(Rule::DuplicateMember, part.at),
    )?;
    check_content(scope, definition, part)
}

/// Puts the name of a part, if it has one, into the table of the names taken.
fn note_part(
    alloc: Global,
    taken: &mut NameTable,
    definition: &ClassRec<Name>,
    part: &PartAt,
    number: usize,
) -> Result<(), NoMemory>
    ensures { OnOk result ((parts : List PartAt) → HoldsNames taken.old (names_taken definition.now parts) → HoldsNames taken.new (names_taken definition.now (parts ++ part.now ∷ []))) }
{
    if let Some(name) = name_of(definition, part) {
        taken.note(alloc, name.as_slice(), number)?;
    }
    Ok(())
}

fn check_parts(alloc: Global, scope: &Scope, definition: &ClassRec<Name>) -> Result<(), Stop>
    requires { Numbers scope.now.table.now (names_of scope.now.records.now) }
    ensures { StopsAtFirst (in_turn (part_faults (names_of scope.now.records.now) (names_of (take scope.now.earlier scope.now.records.now)) definition.now) [] definition.now.order) result }
{
    let order = definition.order.as_slice();
    let mut taken = NameTable::new(alloc);
    taken.note(alloc, definition.name.as_slice(), 0)?;
    for (number, part) in order.iter().enumerate() {
        check_part(scope, definition, &taken, &order[..number], part)?;
        note_part(alloc, &mut taken, definition, part, number)?;
    }
    Ok(())
}

fn check_class(alloc: Global, scope: &Scope, definition: &ClassRec<Name>) -> Result<(), Stop>
    requires numbers { Numbers scope.now.table.now (names_of scope.now.records.now) }
    requires within { scope.now.earlier ≤ length scope.now.records.now }
    ensures { StopsAtFirst (class_faults (names_of scope.now.records.now) (take scope.now.earlier scope.now.records.now) definition.now) result }
{
    stop_if(
        is_complete(scope, &definition.name),
        Stop::Refused(Rule::DuplicateClass, definition.at),
    )?;
    stop_if(scope.earlier >= MOST_CLASSES, Stop::Limit(LimitNo::L2))?;
    check_bases(scope, definition.bases.as_slice())?;
    check_parts(alloc, scope, definition)
}

/// Goes over the classes in their order, and stops at the first fault.
pub(crate) fn check_classes(
    alloc: Global,
    records: &[ClassRec<Name>],
    table: &NameTable,
) -> Result<(), Stop>
    requires { Numbers table.now (names_of records.now) }
    ensures { StopsAtFirst (faults_of records.now) result }
{
    for (earlier, definition) in records.iter().enumerate() {
        let scope = Scope {
            records,
            table,
            earlier,
        };
        check_class(alloc, &scope, definition)?;
    }
    Ok(())
}

/// The table of the names of the records, each with the number of its first definition.
pub(crate) fn name_table(alloc: Global, records: &[ClassRec<Name>]) -> Result<NameTable, NoMemory>
    ensures { IfOk result (λ table. Numbers table (names_of records.now)) }
{
    let mut table = NameTable::new(alloc);
    for (number, definition) in records.iter().enumerate() {
        table.note(alloc, definition.name.as_slice(), number)?;
    }
    Ok(table)
}
