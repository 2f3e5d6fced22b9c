//! What a class definition says, over names or over class numbers.

ghost use Rattle.std.specs.Prelude.{◌≡◌};
ghost use Rattle.std.specs.List.{list_any};
ghost use Rattle.cxx_hierarchy.specs.declared.records.ClassId.{ClassId};
ghost use Rattle.cxx_hierarchy.specs.declared.records.Function.{Function};

use foundation::Sequence;

/// The bytes of a name, at most 255.
pub type Name = Sequence<u8>;

/// The number of a class: its place among the definitions of the source, from 0.
#[derive(Clone, Copy, Debug, PartialEq, Eq)]
pub struct ClassId(pub u32);

/// A number type (ISO C++03 3.9.1; `long long` is an extension).
#[derive(Clone, Copy, Debug, PartialEq, Eq)]
pub enum Scalar {
    Bool,
    Char,
    SChar,
    UChar,
    Short,
    UShort,
    Int,
    UInt,
    Long,
    ULong,
    LongLong,
    ULongLong,
}

/// The type of a value: a number, or a pointer to a class.
#[derive(Debug, Drop)]
pub enum ValueType<R> {
    Number(Scalar),
    Pointer(R),
}

/// The type of a data member or of its elements: a value, or an object of a class.
#[derive(Debug, Drop)]
pub enum FieldType<R> {
    Value(ValueType<R>),
    Object(R),
}

/// What a function returns.
#[derive(Debug, Drop)]
pub enum ReturnType<R> {
    Void,
    Value(ValueType<R>),
}

/// A direct base; `at` is the byte of its class's name.
#[derive(Debug, Drop)]
pub struct Base<R> {
    pub class: R,
    pub is_virtual: bool,
    pub is_public: bool,
    pub at: u32,
}

/// A data member; `count` is the length where it is an array, and `at` the byte of its name.
///
/// `width` is the number of bits where it is a bit-field (ISO C++03 9.6), and `width_at` the byte of that number, else 0.
#[derive(Debug, Drop)]
pub struct Member<R> {
    pub name: Name,
    pub ty: FieldType<R>,
    pub count: Option<u32>,
    pub width: Option<u32>,
    pub width_at: u32,
    pub is_public: bool,
    pub at: u32,
}

/// A parameter; `ty_at` is the byte of its type's first token, `at` that of its name.
#[derive(Debug, Drop)]
pub struct Param<R> {
    pub name: Name,
    pub ty: ValueType<R>,
    pub ty_at: u32,
    pub at: u32,
}

/// A member function; `at` is the byte of its name.
#[derive(Debug, Drop)]
pub struct Function<R> {
    pub name: Name,
    pub params: ParamList<R>,
    pub ret: ReturnType<R>,
    pub is_virtual: bool,
    pub is_pure: bool,
    pub at: u32,
}

/// The destructor of a class, as it is declared.
#[derive(Clone, Copy, Debug, PartialEq, Eq)]
pub enum Destructor {
    Implicit,
    Plain,
    Virtual,
}

impl Destructor {
    ghost use Rattle.std.specs.Prelude.{◌≡◌};
    ghost use Rattle.cxx_hierarchy.specs.Declarations.{is_implicit, is_virtual_destructor};

    /// Whether the class declares none.
    pub fn is_implicit(self) -> bool
        ensures { result ≡ is_implicit self }
    {
        match self {
            Destructor::Implicit => true,
            Destructor::Plain | Destructor::Virtual => false,
        }
    }

    /// Whether the class declares it as virtual.
    pub fn is_virtual(self) -> bool
        ensures { result ≡ is_virtual_destructor self }
    {
        match self {
            Destructor::Virtual => true,
            Destructor::Implicit | Destructor::Plain => false,
        }
    }
}

/// What a part of a class is.
#[derive(Clone, Copy, Debug, PartialEq, Eq)]
pub enum PartKind {
    Member,
    Function,
    Constructor,
    Destructor,
}

/// One part of a class, in the order of declaration.
///
/// `number` is its number among the members or among the functions, and 0 for a constructor or a destructor.
/// `ty_at` is the byte of its type's first token, and None exactly for these two. `at` is the byte of its name.
#[derive(Clone, Copy, Debug)]
pub struct PartAt {
    pub kind: PartKind,
    pub number: u32,
    pub ty_at: Option<u32>,
    pub at: u32,
}

/// A class definition; `at` is the byte of its name.
#[derive(Debug, Drop)]
pub struct ClassRec<R> {
    pub name: Name,
    pub at: u32,
    pub bases: BaseList<R>,
    pub members: MemberList<R>,
    pub functions: FunctionList<R>,
    pub order: PartOrder,
    pub has_constructor: bool,
    pub destructor: Destructor,
}

fn is_some_virtual(functions: &[Function<ClassId>]) -> bool
    ensures { result ≡ list_any (λ (function : Function ClassId). function.is_virtual) functions.now }
{
    functions.iter().any(|function| function.is_virtual)
}

impl ClassRec<ClassId> {
    ghost use Rattle.std.specs.Prelude.{◌≡◌};
    ghost use Rattle.cxx_hierarchy.specs.Declarations.{has_virtual_function};

    /// Whether the class declares a virtual function, or its destructor so (ISO C++03 10.3).
    pub fn has_virtual_function(&self) -> bool
        ensures { result ≡ has_virtual_function self.now }
    {
        is_some_virtual(self.functions.as_slice()) || self.destructor.is_virtual()
    }
}

impl<R> Member<R> {
    ghost use Rattle.std.specs.Prelude.{◌≡◌};
    ghost use Rattle.cxx_hierarchy.specs.Declarations.{elements_of};

    /// How many elements the member has: one where it is no array.
    pub fn elements(&self) -> u32
        ensures { result ≡ elements_of self.now.count }
    {
        self.count.unwrap_or(1)
    }
}

pub type BaseList<R> = Sequence<Base<R>>;

pub type MemberList<R> = Sequence<Member<R>>;

pub type ParamList<R> = Sequence<Param<R>>;

pub type FunctionList<R> = Sequence<Function<R>>;

pub type PartOrder = Sequence<PartAt>;

pub type RecordList = Sequence<ClassRec<Name>>;
