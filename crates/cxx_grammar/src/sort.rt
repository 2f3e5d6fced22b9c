//! What a token is to the grammar.

ghost use Rattle.std.specs.Prelude.{◌≡◌, true};
ghost use Rattle.cxx_grammar.specs.Sorts.{sort_no, is_same, is_name};

/// What a token is to the grammar: the terminals, and what none of them is.
#[derive(Clone, Copy, Debug, PartialEq, Eq)]
pub enum Sort {
    Struct,
    Class,
    Public,
    Protected,
    Private,
    Virtual,
    Boolean,
    Char,
    Short,
    Int,
    Long,
    Signed,
    Unsigned,
    Void,
    Return,
    New,
    Delete,
    If,
    Else,
    While,
    This,
    True,
    False,
    StaticCast,
    DynamicCast,
    Typeid,
    Main,
    Print,
    Dump,
    /// A word that is no word of the language, and not the name of the class.
    Name,
    /// The name of the class whose definition or forward declaration began last.
    OwnName,
    /// Any other number.
    Number,
    /// The number spelled `0`.
    Zero,
    /// A word of C++ that the language leaves out.
    LeftOut,
    /// The brace that opens the parts of a class.
    OpenBrace,
    /// The brace that opens a block: it stands directly after `)` or `else`.
    OpenBlock,
    CloseBrace,
    OpenParen,
    CloseParen,
    OpenBracket,
    CloseBracket,
    Semicolon,
    Colon,
    DoubleColon,
    Comma,
    Star,
    Ampersand,
    Assign,
    Equal,
    NotEqual,
    Bang,
    Arrow,
    Dot,
    Less,
    LessEqual,
    Greater,
    Plus,
    Minus,
    Tilde,
    /// The end of the text, as a token of no bytes.
    End,
    /// Where the list ends: no token stands there.
    Bad,
}

/// A token with its sort.
///
/// `at` and `end` are places in bytes, and `end` is the first place after the token. `line` counts from 1.
/// `value` is the value of a number.
#[derive(Clone, Copy, Debug)]
pub struct Lexeme {
    pub sort: Sort,
    pub at: u32,
    pub end: u32,
    pub line: u32,
    pub value: u64,
}

// The number of a sort.
fn sort_no(sort: Sort) -> u8
    ensures { result ≡ sort_no sort }
{
    sort as u8
}

/// Whether two sorts are one.
#[tactic(auto, using(crate::proofs::Sorts::same_eq))]
pub fn is_same(sort: Sort, other: Sort) -> bool
    ensures same { result ≡ is_same other sort }
    ensures equal { result ≡ true → sort ≡ other }
{
    sort_no(other) == sort_no(sort)
}

/// Whether a sort is that of a name, the class's own or another.
pub fn is_name(sort: Sort) -> bool
    ensures { result ≡ is_name sort }
{
    match sort {
        Sort::Name | Sort::OwnName => true,
        _ => false,
    }
}
