//! Records with each class name replaced by the number of its class.

ghost use Rattle.std.specs.Prelude.{◌≡◌, ◌<◌, ◌^◌, ℕ, Some, IfOk, map, List};
ghost use Rattle.cxx_hierarchy.specs.NameTables.{Text, Numbers, number_in};
ghost use Rattle.cxx_hierarchy.specs.Resolved.{class_in, resolved_value, resolved_field, resolved_return, resolved_base, resolved_member, resolved_param, resolved_function, resolved_class, NumbersAreSmall};

use crate::names::NameTable;
use crate::records::{
    Base, BaseList, ClassId, ClassRec, FieldType, Function, FunctionList, Member, MemberList, Name,
    Param, ParamList, PartAt, PartOrder, ReturnType, ValueType,
};
use foundation::{NoMemory, Sequence};
use std::alloc::Global;

fn class_of(table: &NameTable, name: &Name) -> ClassId
    requires { NumbersAreSmall table.now }
    ensures { result ≡ class_in table.now name.now }
{
    match table.find(name.as_slice()) {
        Some(number) => ClassId(number as u32),
        // never met: the class pass refuses a name that no class has, by the clause `ok` of `build`
        None => ClassId(0),
    }
}

fn copied_name(alloc: Global, name: &Name) -> Result<Name, NoMemory>
    ensures { IfOk result (λ copy. copy ≡ name.now) }
{
    Ok(Sequence::from_vec(Vec::from_slice(alloc, name.as_slice())?))
}

fn copied_order(alloc: Global, order: &PartOrder) -> Result<PartOrder, NoMemory>
    ensures { IfOk result (λ copy. copy ≡ order.now) }
{
    let mut copy = Sequence::new(alloc);
    for part in order.as_slice() {
        copy.push(*part)?;
    }
    Ok(copy)
}

fn resolve_value(table: &NameTable, ty: &ValueType<Name>) -> ValueType<ClassId>
    requires { NumbersAreSmall table.now }
    ensures { result ≡ resolved_value (class_in table.now) ty.now }
{
    match ty {
        ValueType::Number(scalar) => ValueType::Number(*scalar),
        ValueType::Pointer(class) => ValueType::Pointer(class_of(table, class)),
    }
}

fn resolve_field(table: &NameTable, ty: &FieldType<Name>) -> FieldType<ClassId>
    requires { NumbersAreSmall table.now }
    ensures { result ≡ resolved_field (class_in table.now) ty.now }
{
    match ty {
        FieldType::Value(ty) => FieldType::Value(resolve_value(table, ty)),
        FieldType::Object(class) => FieldType::Object(class_of(table, class)),
    }
}

fn resolve_return(table: &NameTable, ty: &ReturnType<Name>) -> ReturnType<ClassId>
    requires { NumbersAreSmall table.now }
    ensures { result ≡ resolved_return (class_in table.now) ty.now }
{
    match ty {
        ReturnType::Void => ReturnType::Void,
        ReturnType::Value(ty) => ReturnType::Value(resolve_value(table, ty)),
    }
}

fn resolve_base(table: &NameTable, base: &Base<Name>) -> Base<ClassId>
    requires { NumbersAreSmall table.now }
    ensures { result ≡ resolved_base (class_in table.now) base.now }
{
    Base {
        class: class_of(table, &base.class),
        is_virtual: base.is_virtual,
        is_public: base.is_public,
        at: base.at,
    }
}

fn resolve_member(
    alloc: Global,
    table: &NameTable,
    member: &Member<Name>,
) -> Result<Member<ClassId>, NoMemory>
    requires { NumbersAreSmall table.now }
    ensures { IfOk result (λ m. m ≡ resolved_member (class_in table.now) member.now) }
{
    Ok(Member {
        name: copied_name(alloc, &member.name)?,
        ty: resolve_field(table, &member.ty),
        count: member.count,
        width: member.width,
        width_at: member.width_at,
        is_public: member.is_public,
        at: member.at,
    })
}

fn resolve_param(
    alloc: Global,
    table: &NameTable,
    param: &Param<Name>,
) -> Result<Param<ClassId>, NoMemory>
    requires { NumbersAreSmall table.now }
    ensures { IfOk result (λ p. p ≡ resolved_param (class_in table.now) param.now) }
{
    Ok(Param {
        name: copied_name(alloc, &param.name)?,
        ty: resolve_value(table, &param.ty),
        ty_at: param.ty_at,
        at: param.at,
    })
}

fn resolve_params(
    alloc: Global,
    table: &NameTable,
    params: &ParamList<Name>,
) -> Result<ParamList<ClassId>, NoMemory>
    requires { NumbersAreSmall table.now }
    ensures { IfOk result (λ ps. ps ≡ map (resolved_param (class_in table.now)) params.now) }
{
    let mut out = Sequence::new(alloc);
    for param in params.as_slice() {
        out.push(resolve_param(alloc, table, param)?)?;
    }
    Ok(out)
}

fn resolve_function(
    alloc: Global,
    table: &NameTable,
    function: &Function<Name>,
) -> Result<Function<ClassId>, NoMemory>
    requires { NumbersAreSmall table.now }
    ensures { IfOk result (λ f. f ≡ resolved_function (class_in table.now) function.now) }
{
    Ok(Function {
        name: copied_name(alloc, &function.name)?,
        params: resolve_params(alloc, table, &function.params)?,
        ret: resolve_return(table, &function.ret),
        is_virtual: function.is_virtual,
        is_pure: function.is_pure,
        at: function.at,
    })
}

fn resolve_bases(
    alloc: Global,
    table: &NameTable,
    bases: &BaseList<Name>,
) -> Result<BaseList<ClassId>, NoMemory>
    requires { NumbersAreSmall table.now }
    ensures { IfOk result (λ bs. bs ≡ map (resolved_base (class_in table.now)) bases.now) }
{
    let mut out = Sequence::new(alloc);
    for base in bases.as_slice() {
        out.push(resolve_base(table, base))?;
    }
    Ok(out)
}

fn resolve_members(
    alloc: Global,
    table: &NameTable,
    members: &MemberList<Name>,
) -> Result<MemberList<ClassId>, NoMemory>
    requires { NumbersAreSmall table.now }
    ensures { IfOk result (λ ms. ms ≡ map (resolved_member (class_in table.now)) members.now) }
{
    let mut out = Sequence::new(alloc);
    for member in members.as_slice() {
        out.push(resolve_member(alloc, table, member)?)?;
    }
    Ok(out)
}

fn resolve_functions(
    alloc: Global,
    table: &NameTable,
    functions: &FunctionList<Name>,
) -> Result<FunctionList<ClassId>, NoMemory>
    requires { NumbersAreSmall table.now }
    ensures { IfOk result (λ fs. fs ≡ map (resolved_function (class_in table.now)) functions.now) }
{
    let mut out = Sequence::new(alloc);
    for function in functions.as_slice() {
        out.push(resolve_function(alloc, table, function)?)?;
    }
    Ok(out)
}

fn resolve_class(
    alloc: Global,
    table: &NameTable,
    class: &ClassRec<Name>,
) -> Result<ClassRec<ClassId>, NoMemory>
    requires { NumbersAreSmall table.now }
    ensures { IfOk result (λ c. c ≡ resolved_class (class_in table.now) class.now) }
{
    Ok(ClassRec {
        name: copied_name(alloc, &class.name)?,
        at: class.at,
        bases: resolve_bases(alloc, table, &class.bases)?,
        members: resolve_members(alloc, table, &class.members)?,
        functions: resolve_functions(alloc, table, &class.functions)?,
        order: copied_order(alloc, &class.order)?,
        has_constructor: class.has_constructor,
        destructor: class.destructor,
    })
}

/// The records with each class name replaced by its number in the table.
pub(crate) fn resolve_classes(
    alloc: Global,
    table: &NameTable,
    records: &[ClassRec<Name>],
) -> Result<Vec<ClassRec<ClassId>>, NoMemory>
    requires { NumbersAreSmall table.now }
    ensures { IfOk result (λ classes. classes.items ≡ map (resolved_class (class_in table.now)) records.now) }
{
    let mut out = Vec::new(alloc);
    for class in records {
        out.push(resolve_class(alloc, table, class)?)?;
    }
    Ok(out)
}
