//! What the pieces of a statement are typed to, with their types.

use crate::faults::Piece;
use cxx_hierarchy::{ClassId, FieldType, ReturnType, Scalar, ValueType};
use cxx_overrider::FunctionId;
use cxx_program::{PassedList, TypeList, TypedCall, TypedOperand, TypedPlace, TypedRight};
use cxx_subobject::Subobject;

/// The value of an operand, its type, and whether it is a null pointer constant.
#[derive(Drop)]
pub struct Value {
    pub operand: TypedOperand,
    pub ty: ValueType<ClassId>,
    pub is_null: bool,
}

/// A pointer, and the class that it points to.
#[derive(Clone, Copy)]
pub struct Pointer {
    pub operand: TypedOperand,
    pub class: ClassId,
}

/// A number, and its type.
#[derive(Clone, Copy)]
pub struct Number {
    pub operand: TypedOperand,
    pub scalar: Scalar,
}

/// A data member that was found: the subobject that has it, its number in the subobject's class, the type of the member or
/// of its elements, and its length where it is an array.
#[derive(Drop)]
pub(crate) struct FoundMember {
    pub(crate) base: Subobject,
    pub(crate) number: u32,
    pub(crate) ty: FieldType<ClassId>,
    pub(crate) count: Option<u32>,
}

/// One name of a place: the member's subobject and number, the index of the element, and the type.
#[derive(Drop)]
pub(crate) struct PlaceStep {
    pub(crate) base: Subobject,
    pub(crate) member: u32,
    pub(crate) index: u32,
    pub(crate) ty: FieldType<ClassId>,
}

/// How far a place has come: the members that are passed through, the last step, where there is one, and its type.
#[derive(Drop)]
pub(crate) struct Reached {
    pub(crate) passed: PassedList,
    pub(crate) last: Option<PlaceStep>,
    pub(crate) ty: FieldType<ClassId>,
}

/// A place, and the type of what stands there.
#[derive(Drop)]
pub(crate) struct FieldPlace {
    pub(crate) place: TypedPlace,
    pub(crate) ty: FieldType<ClassId>,
}

/// A place of a number or a pointer, and its type.
#[derive(Drop)]
pub struct LeafPlace {
    pub place: TypedPlace,
    pub ty: ValueType<ClassId>,
}

/// A place of an object, and its class.
#[derive(Drop)]
pub(crate) struct ObjectPlace {
    pub(crate) place: TypedPlace,
    pub(crate) class: ClassId,
}

/// A function that was found: the subobject that has it, the function, the types of its parameters, what it returns, and
/// whether it is pure.
#[derive(Drop)]
pub(crate) struct FoundFunction {
    pub(crate) base: Subobject,
    pub(crate) function: FunctionId,
    pub(crate) parameters: TypeList,
    pub(crate) returns: ReturnType<ClassId>,
    pub(crate) is_pure: bool,
}

/// The pointer of a call, and the function that the call names.
#[derive(Drop)]
pub(crate) struct Target {
    pub(crate) pointer: Pointer,
    pub(crate) found: FoundFunction,
}

/// The pointer of a qualified call, and the class before `::` as a proper base of its class.
#[derive(Drop)]
pub(crate) struct Receiver {
    pub(crate) pointer: Pointer,
    pub(crate) path: Option<Subobject>,
}

/// What the function of a call returns, and the call, or the fault that refuses its receiver or an argument.
#[derive(Drop)]
pub(crate) struct CallValue {
    pub(crate) call: Piece<TypedCall>,
    pub(crate) returns: ReturnType<ClassId>,
}

/// The type of a right side, whether it is a null pointer constant, and the right side, or the fault that refuses a part of
/// it. Only a call has its type from a part of it, the function.
#[derive(Drop)]
pub struct RightValue {
    pub right: Piece<TypedRight>,
    pub ty: ValueType<ClassId>,
    pub is_null: bool,
}
