//! The words and signs of the language, and the words that it leaves out.

ghost use Rattle.std.specs.Prelude.{◌≡◌, map};
ghost use Rattle.cxx_grammar.specs.Words.{same_bytes, look_up, spelling, words, signs};

use crate::sort::Sort;

/// A word or sign and its sort.
pub(crate) struct Spelling {
    bytes: &'static [u8],
    sort: Sort,
}

const WORDS: [Spelling; 69] = [
    Spelling {
        bytes: b"struct",
        sort: Sort::Struct,
    },
    Spelling {
        bytes: b"class",
        sort: Sort::Class,
    },
    Spelling {
        bytes: b"public",
        sort: Sort::Public,
    },
    Spelling {
        bytes: b"protected",
        sort: Sort::Protected,
    },
    Spelling {
        bytes: b"private",
        sort: Sort::Private,
    },
    Spelling {
        bytes: b"virtual",
        sort: Sort::Virtual,
    },
    Spelling {
        bytes: b"bool",
        sort: Sort::Boolean,
    },
    Spelling {
        bytes: b"char",
        sort: Sort::Char,
    },
    Spelling {
        bytes: b"short",
        sort: Sort::Short,
    },
    Spelling {
        bytes: b"int",
        sort: Sort::Int,
    },
    Spelling {
        bytes: b"long",
        sort: Sort::Long,
    },
    Spelling {
        bytes: b"signed",
        sort: Sort::Signed,
    },
    Spelling {
        bytes: b"unsigned",
        sort: Sort::Unsigned,
    },
    Spelling {
        bytes: b"void",
        sort: Sort::Void,
    },
    Spelling {
        bytes: b"return",
        sort: Sort::Return,
    },
    Spelling {
        bytes: b"new",
        sort: Sort::New,
    },
    Spelling {
        bytes: b"delete",
        sort: Sort::Delete,
    },
    Spelling {
        bytes: b"if",
        sort: Sort::If,
    },
    Spelling {
        bytes: b"else",
        sort: Sort::Else,
    },
    Spelling {
        bytes: b"while",
        sort: Sort::While,
    },
    Spelling {
        bytes: b"this",
        sort: Sort::This,
    },
    Spelling {
        bytes: b"true",
        sort: Sort::True,
    },
    Spelling {
        bytes: b"false",
        sort: Sort::False,
    },
    Spelling {
        bytes: b"static_cast",
        sort: Sort::StaticCast,
    },
    Spelling {
        bytes: b"dynamic_cast",
        sort: Sort::DynamicCast,
    },
    Spelling {
        bytes: b"typeid",
        sort: Sort::Typeid,
    },
    Spelling {
        bytes: b"main",
        sort: Sort::Main,
    },
    Spelling {
        bytes: b"print",
        sort: Sort::Print,
    },
    Spelling {
        bytes: b"dump",
        sort: Sort::Dump,
    },
    Spelling {
        bytes: b"alignas",
        sort: Sort::LeftOut,
    },
    Spelling {
        bytes: b"alignof",
        sort: Sort::LeftOut,
    },
    Spelling {
        bytes: b"asm",
        sort: Sort::LeftOut,
    },
    Spelling {
        bytes: b"auto",
        sort: Sort::LeftOut,
    },
    Spelling {
        bytes: b"break",
        sort: Sort::LeftOut,
    },
    Spelling {
        bytes: b"case",
        sort: Sort::LeftOut,
    },
    Spelling {
        bytes: b"catch",
        sort: Sort::LeftOut,
    },
    Spelling {
        bytes: b"const",
        sort: Sort::LeftOut,
    },
    Spelling {
        bytes: b"const_cast",
        sort: Sort::LeftOut,
    },
    Spelling {
        bytes: b"continue",
        sort: Sort::LeftOut,
    },
    Spelling {
        bytes: b"default",
        sort: Sort::LeftOut,
    },
    Spelling {
        bytes: b"do",
        sort: Sort::LeftOut,
    },
    Spelling {
        bytes: b"double",
        sort: Sort::LeftOut,
    },
    Spelling {
        bytes: b"enum",
        sort: Sort::LeftOut,
    },
    Spelling {
        bytes: b"explicit",
        sort: Sort::LeftOut,
    },
    Spelling {
        bytes: b"export",
        sort: Sort::LeftOut,
    },
    Spelling {
        bytes: b"extern",
        sort: Sort::LeftOut,
    },
    Spelling {
        bytes: b"float",
        sort: Sort::LeftOut,
    },
    Spelling {
        bytes: b"for",
        sort: Sort::LeftOut,
    },
    Spelling {
        bytes: b"friend",
        sort: Sort::LeftOut,
    },
    Spelling {
        bytes: b"goto",
        sort: Sort::LeftOut,
    },
    Spelling {
        bytes: b"inline",
        sort: Sort::LeftOut,
    },
    Spelling {
        bytes: b"mutable",
        sort: Sort::LeftOut,
    },
    Spelling {
        bytes: b"namespace",
        sort: Sort::LeftOut,
    },
    Spelling {
        bytes: b"nullptr",
        sort: Sort::LeftOut,
    },
    Spelling {
        bytes: b"operator",
        sort: Sort::LeftOut,
    },
    Spelling {
        bytes: b"register",
        sort: Sort::LeftOut,
    },
    Spelling {
        bytes: b"reinterpret_cast",
        sort: Sort::LeftOut,
    },
    Spelling {
        bytes: b"sizeof",
        sort: Sort::LeftOut,
    },
    Spelling {
        bytes: b"static",
        sort: Sort::LeftOut,
    },
    Spelling {
        bytes: b"switch",
        sort: Sort::LeftOut,
    },
    Spelling {
        bytes: b"template",
        sort: Sort::LeftOut,
    },
    Spelling {
        bytes: b"throw",
        sort: Sort::LeftOut,
    },
    Spelling {
        bytes: b"try",
        sort: Sort::LeftOut,
    },
    Spelling {
        bytes: b"typedef",
        sort: Sort::LeftOut,
    },
    Spelling {
        bytes: b"typename",
        sort: Sort::LeftOut,
    },
    Spelling {
        bytes: b"union",
        sort: Sort::LeftOut,
    },
    Spelling {
        bytes: b"using",
        sort: Sort::LeftOut,
    },
    Spelling {
        bytes: b"volatile",
        sort: Sort::LeftOut,
    },
    Spelling {
        bytes: b"wchar_t",
        sort: Sort::LeftOut,
    },
];

const SIGNS: [Spelling; 24] = [
    Spelling {
        bytes: b"{",
        sort: Sort::OpenBrace,
    },
    Spelling {
        bytes: b"}",
        sort: Sort::CloseBrace,
    },
    Spelling {
        bytes: b"(",
        sort: Sort::OpenParen,
    },
    Spelling {
        bytes: b")",
        sort: Sort::CloseParen,
    },
    Spelling {
        bytes: b"[",
        sort: Sort::OpenBracket,
    },
    Spelling {
        bytes: b"]",
        sort: Sort::CloseBracket,
    },
    Spelling {
        bytes: b";",
        sort: Sort::Semicolon,
    },
    Spelling {
        bytes: b":",
        sort: Sort::Colon,
    },
    Spelling {
        bytes: b"::",
        sort: Sort::DoubleColon,
    },
    Spelling {
        bytes: b",",
        sort: Sort::Comma,
    },
    Spelling {
        bytes: b"*",
        sort: Sort::Star,
    },
    Spelling {
        bytes: b"&",
        sort: Sort::Ampersand,
    },
    Spelling {
        bytes: b"=",
        sort: Sort::Assign,
    },
    Spelling {
        bytes: b"==",
        sort: Sort::Equal,
    },
    Spelling {
        bytes: b"!=",
        sort: Sort::NotEqual,
    },
    Spelling {
        bytes: b"!",
        sort: Sort::Bang,
    },
    Spelling {
        bytes: b"->",
        sort: Sort::Arrow,
    },
    Spelling {
        bytes: b".",
        sort: Sort::Dot,
    },
    Spelling {
        bytes: b"<",
        sort: Sort::Less,
    },
    Spelling {
        bytes: b"<=",
        sort: Sort::LessEqual,
    },
    Spelling {
        bytes: b">",
        sort: Sort::Greater,
    },
    Spelling {
        bytes: b"+",
        sort: Sort::Plus,
    },
    Spelling {
        bytes: b"-",
        sort: Sort::Minus,
    },
    Spelling {
        bytes: b"~",
        sort: Sort::Tilde,
    },
];

/// Whether two lists of bytes are the same.
pub(crate) fn same_bytes(a: &[u8], b: &[u8]) -> bool
    ensures { result ≡ same_bytes a.now b.now }
{
    a == b
}

// The sort of the first line with these bytes, or this other one.
fn look_up(bytes: &[u8], lines: &[Spelling], otherwise: Sort) -> Sort
    ensures { result ≡ look_up bytes.now (map spelling lines.now) otherwise }
{
    for line in lines {
        if same_bytes(bytes, line.bytes) {
            return line.sort;
        }
    }
    otherwise
}

/// The sort of a word: a word of the language, one that is left out, or a name.
pub(crate) fn word_sort(bytes: &[u8]) -> Sort
    ensures { result ≡ look_up bytes.now words Sort.Name }
{
    look_up(bytes, &WORDS, Sort::Name)
}

/// The sort of a sign.
pub(crate) fn sign_sort(bytes: &[u8]) -> Sort
    ensures { result ≡ look_up bytes.now signs Sort.Bad }
{
    look_up(bytes, &SIGNS, Sort::Bad)
}
