//! How a call of the program ends, and the last line that says so.

ghost use Rattle.std.specs.Prelude.{◌≡◌, ◌++◌, ◌∷◌, [], IfOk, codes, string_bytes};
ghost use Rattle.std.specs.Fmt.{decimal};
ghost use Rattle.path_rules.specs.Rules.{undefined_no};
ghost use Rattle.cxxabi_cmd.specs.Statuses.{exit_status, input_no, status_line, line_part, name_of_input, name_of_rule, name_of_undefined};

use cxx_hierarchy::{LimitNo, Rule};
use foundation::NoMemory;
use path_rules::Undefined;
use std::alloc::{AllocError, Global};

/// A rule on a class and a member that the words name, on a listing, or on a dump, called by its number.
#[derive(Clone, Copy, Debug, PartialEq, Eq)]
pub enum InputRule {
    /// The listing has not the form of a listing, or no line `program` stands behind it.
    F1,
    /// A primary base is none by the layout.
    F2,
    /// A size is 0, or a place is not where the paths to it lead.
    F3,
    /// A place has not the alignment of what lies there.
    F4,
    /// Something does not lie inside its class.
    F5,
    /// Two things share bytes.
    F6,
    /// Two subobjects of one class lie at one place.
    F7,
    /// The class declares no field and no function of the name.
    M1,
    /// The field is a bit-field.
    M2,
    /// The class is no base of the other one.
    M3,
    /// The class is more than once a base of the other one.
    M4,
    /// The base lies in a virtual base.
    M5,
    /// The class of the elements is abstract.
    A1,
    /// The array would have more than 1,048,576 bytes.
    A2,
    /// The dump is one of a class that the source has not.
    I1,
    /// The text is no dump, or no line `program` stands behind it.
    I2,
}

/// How a call of the program ended.
#[derive(Clone, Copy, Debug, PartialEq, Eq)]
pub enum Status {
    /// The output is whole.
    Done,
    /// The source is refused by a rule at a byte.
    Refused(Rule, u32),
    /// What is given besides an accepted source is refused by a rule, at a line from 1 or at none, which is 0.
    BadInput(InputRule, usize),
    /// The words are no command.
    Usage,
    /// A step of the run is refused: the number of the rule, and the line.
    Undefined(u8, u32),
    /// The budget of steps was spent.
    OutOfSteps,
    /// A limit was met.
    Limit(LimitNo),
    /// The source could not be read; nothing is written.
    ReadFault,
    /// The sink did not take the whole text.
    WriteFault,
    /// There was no memory; nothing is written.
    NoMemory,
}

impl Status {
    ghost use Rattle.std.specs.Prelude.{◌≡◌};
    ghost use Rattle.cxxabi_cmd.specs.Statuses.{exit_status};

    /// The exit status of the process.
    pub fn code(&self) -> u8
        ensures { result ≡ exit_status self.now }
    {
        match self {
            Status::Done => 0,
            Status::Refused(_, _) | Status::BadInput(_, _) => 1,
            Status::Usage => 2,
            Status::Undefined(_, _) => 3,
            Status::OutOfSteps => 4,
            Status::Limit(_) => 5,
            Status::ReadFault => 6,
            Status::WriteFault => 7,
            Status::NoMemory => 8,
        }
    }
}

// The printed name of a rule of the source.
fn rule_name(rule: Rule) -> &'static str
    ensures { result.now ≡ name_of_rule rule }
{
    match rule {
        Rule::Lex => "Lex",
        Rule::Syntax => "Syntax",
        Rule::UnknownClass => "UnknownClass",
        Rule::DuplicateClass => "DuplicateClass",
        Rule::IncompleteClass => "IncompleteClass",
        Rule::DuplicateBase => "DuplicateBase",
        Rule::DuplicateMember => "DuplicateMember",
        Rule::BadInitializer => "BadInitializer",
        Rule::AmbiguousName => "AmbiguousName",
        Rule::NoSuchMember => "NoSuchMember",
        Rule::ReturnMismatch => "ReturnMismatch",
        Rule::AmbiguousCovariant => "AmbiguousCovariant",
        Rule::TwoFinalOverriders => "TwoFinalOverriders",
        Rule::Abstract => "Abstract",
        Rule::AmbiguousBase => "AmbiguousBase",
        Rule::NotBase => "NotBase",
        Rule::DowncastVirtual => "DowncastVirtual",
        Rule::NotPolymorphic => "NotPolymorphic",
        Rule::TypeMismatch => "TypeMismatch",
        Rule::Index => "Index",
        Rule::LeftOut => "LeftOut",
        Rule::UnknownName => "UnknownName",
        Rule::BadWidth => "BadWidth",
        Rule::SharedPlace => "SharedPlace",
    }
}

// The number of a rule on what is given besides a source: a letter and a digit.
fn input_number(rule: InputRule) -> &'static str
    ensures { result.now ≡ input_no rule }
{
    match rule {
        InputRule::F1 => "F1",
        InputRule::F2 => "F2",
        InputRule::F3 => "F3",
        InputRule::F4 => "F4",
        InputRule::F5 => "F5",
        InputRule::F6 => "F6",
        InputRule::F7 => "F7",
        InputRule::M1 => "M1",
        InputRule::M2 => "M2",
        InputRule::M3 => "M3",
        InputRule::M4 => "M4",
        InputRule::M5 => "M5",
        InputRule::A1 => "A1",
        InputRule::A2 => "A2",
        InputRule::I1 => "I1",
        InputRule::I2 => "I2",
    }
}

// The printed name of such a rule.
fn input_name(rule: InputRule) -> &'static str
    ensures { result.now ≡ name_of_input rule }
{
    match rule {
        InputRule::F1 => "Form",
        InputRule::F2 => "Primary",
        InputRule::F3 => "Place",
        InputRule::F4 => "Align",
        InputRule::F5 => "Inside",
        InputRule::F6 => "Overlap",
        InputRule::F7 => "Twice",
        InputRule::M1 => "NoSuchMember",
        InputRule::M2 => "BitField",
        InputRule::M3 => "NotBase",
        InputRule::M4 => "AmbiguousBase",
        InputRule::M5 => "VirtualBase",
        InputRule::A1 => "Abstract",
        InputRule::A2 => "TooLarge",
        InputRule::I1 => "UnknownClass",
        InputRule::I2 => "Form",
    }
}

// The number of a rule of a run.
pub(crate) fn number_of(rule: Undefined) -> u8
    ensures { result ≡ undefined_no rule }
{
    match rule {
        Undefined::NullUse => 1,
        Undefined::Dangling => 2,
        Undefined::NotReady => 3,
        Undefined::OutsideView => 4,
        Undefined::Unset => 5,
        Undefined::PureCall => 6,
        Undefined::BadDowncast => 7,
        Undefined::NonVirtualDelete => 8,
        Undefined::NotHeapObject => 9,
        Undefined::NotComplete => 10,
        Undefined::MissingReturn => 11,
        Undefined::Overflow => 12,
    }
}

// The printed name of a rule of a run, by its number.
fn undefined_name(number: u8) -> &'static str
    ensures { result.now ≡ name_of_undefined number }
{
    match number {
        1 => "NullUse",
        2 => "Dangling",
        3 => "NotReady",
        4 => "OutsideView",
        5 => "Unset",
        6 => "PureCall",
        7 => "BadDowncast",
        8 => "NonVirtualDelete",
        9 => "NotHeapObject",
        10 => "NotComplete",
        11 => "MissingReturn",
        // 12: another number is never met, as `status_of` takes it of a rule (`undefined_no`)
        _ => "Overflow",
    }
}

// A line of a number, a name and a place.
fn placed_line(
    alloc: Global,
    head: &str,
    number: u8,
    name: &str,
    middle: &str,
    place: u32,
) -> Result<String, AllocError>
    ensures { IfOk result (λ line. string_bytes line ≡ head.now ++ decimal number ++ codes " " ++ name.now ++ middle.now ++ decimal place ++ 10 ∷ []) }
{
    let mut line = String::from_str(alloc, head)?;
    line.push_str(&number.to_string(alloc)?)?;
    line.push_str(" ")?;
    line.push_str(name)?;
    line.push_str(middle)?;
    line.push_str(&place.to_string(alloc)?)?;
    line.push('\n')?;
    Ok(line)
}

// The line that a refusal names, and nothing where it names none.
fn line_part(alloc: Global, line: usize) -> Result<String, AllocError>
    ensures { IfOk result (λ text. string_bytes text ≡ line_part line) }
{
    if line == 0 {
        return Ok(String::new(alloc));
    }
    format!(in alloc; " line {line}")
}

// The line of a refusal of what is given besides a source.
fn input_line(alloc: Global, rule: InputRule, line: usize) -> Result<String, AllocError>
    ensures { IfOk result (λ text. string_bytes text ≡ codes "refused " ++ input_no rule ++ codes " " ++ name_of_input rule ++ line_part line ++ 10 ∷ []) }
{
    let mut text = String::from_str(alloc, "refused ")?;
    text.push_str(input_number(rule))?;
    text.push_str(" ")?;
    text.push_str(input_name(rule))?;
    text.push_str(&line_part(alloc, line)?)?;
    text.push('\n')?;
    Ok(text)
}

// The line that ends an answer of this status, or nothing; `steps` is the budget of the run.
pub(crate) fn last_line_of(alloc: Global, status: Status, steps: u32) -> Result<String, AllocError>
    ensures { IfOk result (λ line. string_bytes line ≡ status_line status steps) }
{
    match status {
        Status::Refused(rule, at) => {
            placed_line(alloc, "refused E", rule.no(), rule_name(rule), " at ", at)
        }
        Status::BadInput(rule, line) => input_line(alloc, rule, line),
        Status::Usage => String::from_str(alloc, "usage\n"),
        Status::Undefined(number, line) => {
            placed_line(
                alloc,
                "undefined U",
                number,
                undefined_name(number),
                " line ",
                line,
            )
        }
        Status::OutOfSteps => format!(in alloc; "out of steps {steps}\n"),
        Status::Limit(limit) => {
            let number = limit.no();
            format!(in alloc; "limit L{number}\n")
        }
        Status::Done | Status::ReadFault | Status::WriteFault | Status::NoMemory => {
            Ok(String::new(alloc))
        }
    }
}
