//! The commands, and what the words ask for.

ghost use Rattle.std.specs.Prelude.{◌≡◌, IfOk, MatchOption, map, option_map, string_bytes};
ghost use Rattle.cxxabi_words.specs.Commands.{IsCommand, Says};
ghost use Rattle.cxxabi_words.specs.invariants.Asked.{array_form, array_of, check_form, foreign_form, command_form, gen_form, inspect_form, layout_form, member_form, qualified_member_command, member_pointer_command, paths_form, plain_form, run_form, tables_form};

use crate::names::{cut_at, cut_scope, is_name};
use crate::numbers::{budget_of, count_of};
use crate::words::{has_trace, matches_of};
use cxx_hierarchy::{MOST_ELEMENTS, Name};
use foundation::{NoMemory, Sequence};
use std::alloc::Global;

/// The most digits of the number behind `gen`.
const CLASS_DIGITS: usize = 4;

/// The most classes that the words may ask for.
const MOST_CLASSES: u32 = 1_000;

/// The most digits of the number of an array.
const ELEMENT_DIGITS: usize = 4;

/// A member by its name, in the class that declares it, and the class that a pointer to it is for.
#[derive(Drop)]
pub struct QualifiedMember {
    /// The name of the class that declares the member.
    pub class: Name,
    /// The member's name.
    pub member: Name,
    /// The name of the class whose objects the pointer is for.
    pub whole: Name,
}

/// A command.
#[derive(Drop)]
pub enum Command {
    /// Whether the source is accepted, and how many classes it has.
    Check,
    /// The layout of all its classes.
    Layout,
    /// The layout of the class of a name.
    LayoutOf(Name),
    /// The tables of all its classes.
    Tables,
    /// The tables of the class of a name.
    TablesOf(Name),
    /// A run of its `main` on the byte machine, of at most so many steps, and whether each step is traced.
    Run(u32, bool),
    /// A run of its `main` on the machine of paths, of at most so many steps.
    Paths(u32),
    /// A generated source of so many classes.
    Gen(u32),
    /// An array by `new[]` of so many elements of the class of a name.
    Array(Name, u32),
    /// A pointer to a member.
    MemberPointer(QualifiedMember),
    /// What the text of one dump says.
    Inspect,
    /// A run of `main` on the byte machine over the layout of a listing, of at most so many steps.
    Foreign(u32),
}

// The name that a word is.
fn name_of(alloc: Global, word: &str) -> Result<Name, NoMemory>
    ensures { IfOk result (λ name. name ≡ word.now) }
{
    let bytes = Vec::from_slice(alloc, word.as_bytes())?;
    Ok(Sequence::from_vec(bytes))
}

// The command `check`, which takes no argument.
fn check_form(arg: Option<&str>) -> Option<Command>
    ensures { result ≡ check_form (option_map (λ s. s.now) arg.entry) }
{
    match arg {
        Some(_) => None,
        None => Some(Command::Check),
    }
}

// The command `layout`, of the class of a name where there is one.
fn layout_form(alloc: Global, arg: Option<&str>) -> Result<Command, NoMemory>
    ensures { IfOk result (λ command. command ≡ layout_form (option_map (λ s. s.now) arg.entry)) }
{
    match arg {
        Some(class) => Ok(Command::LayoutOf(name_of(alloc, class)?)),
        None => Ok(Command::Layout),
    }
}

// The command `tables`, of the class of a name where there is one.
fn tables_form(alloc: Global, arg: Option<&str>) -> Result<Command, NoMemory>
    ensures { IfOk result (λ command. command ≡ tables_form (option_map (λ s. s.now) arg.entry)) }
{
    match arg {
        Some(class) => Ok(Command::TablesOf(name_of(alloc, class)?)),
        None => Ok(Command::Tables),
    }
}

// The command `gen`, which takes a number of classes.
fn gen_form(arg: Option<&str>) -> Option<Command>
    ensures { result ≡ gen_form (option_map (λ s. s.now) arg.entry) }
{
    let classes = count_of(arg?, CLASS_DIGITS, MOST_CLASSES)?;
    Some(Command::Gen(classes))
}

// The command `array` of a class and a number of elements.
fn array_of(alloc: Global, class: &str, digits: &str) -> Result<Option<Command>, NoMemory>
    ensures { IfOk result (λ found. found ≡ array_of class.now digits.now) }
{
    if !is_name(class) {
        return Ok(None);
    }
    let Some(elements) = count_of(digits, ELEMENT_DIGITS, MOST_ELEMENTS) else {
        return Ok(None);
    };
    Ok(Some(Command::Array(name_of(alloc, class)?, elements)))
}

// The command `array`, which takes a class and a number of elements.
fn array_form(alloc: Global, arg: Option<&str>) -> Result<Option<Command>, NoMemory>
    ensures { IfOk result (λ found. found ≡ array_form (option_map (λ s. s.now) arg.entry)) }
{
    let Some(arg) = arg else {
        return Ok(None);
    };
    let Some((class, digits)) = cut_at(arg) else {
        return Ok(None);
    };
    array_of(alloc, class, digits)
}

// The command `memptr` of a class, a member and the class that the pointer is for.
fn member_of(
    alloc: Global,
    class: &str,
    member: &str,
    whole: &str,
) -> Result<Option<Command>, NoMemory>
    ensures { IfOk result (λ found. found ≡ member_pointer_command class.now member.now whole.now) }
{
    if !is_name(class) || !is_name(member) || !is_name(whole) {
        return Ok(None);
    }
    let class = name_of(alloc, class)?;
    let member = name_of(alloc, member)?;
    let whole = name_of(alloc, whole)?;
    Ok(Some(Command::MemberPointer(QualifiedMember {
        class,
        member,
        whole,
    })))
}

// The command `memptr` of a qualified name, for a class of its own or for the class of the name.
fn member_in(alloc: Global, name: &str, whole: Option<&str>) -> Result<Option<Command>, NoMemory>
    ensures { IfOk result (λ found. found ≡ qualified_member_command name.now (option_map (λ s. s.now) whole.entry)) }
{
    let Some((class, member)) = cut_scope(name) else {
        return Ok(None);
    };
    match whole {
        Some(whole) => member_of(alloc, class, member, whole),
        None => member_of(alloc, class, member, class),
    }
}

// The command `memptr`, which takes a qualified name and may take a class.
fn member_form(alloc: Global, arg: Option<&str>) -> Result<Option<Command>, NoMemory>
    ensures { IfOk result (λ found. found ≡ member_form (option_map (λ s. s.now) arg.entry)) }
{
    let Some(arg) = arg else {
        return Ok(None);
    };
    match cut_at(arg) {
        Some((name, whole)) => member_in(alloc, name, Some(whole)),
        None => member_in(alloc, arg, None),
    }
}

// The command `inspect`, which takes no argument.
fn inspect_form(arg: Option<&str>) -> Option<Command>
    ensures { result ≡ inspect_form (option_map (λ s. s.now) arg.entry) }
{
    match arg {
        Some(_) => None,
        None => Some(Command::Inspect),
    }
}

// The command of a word and an argument, without an option.
fn plain_form(alloc: Global, word: &str, arg: Option<&str>) -> Result<Option<Command>, NoMemory>
    ensures { IfOk result (λ found. found ≡ plain_form word.now (option_map (λ s. s.now) arg.entry)) }
{
    match word {
        "check" => Ok(check_form(arg)),
        "layout" => Ok(Some(layout_form(alloc, arg)?)),
        "tables" => Ok(Some(tables_form(alloc, arg)?)),
        "gen" => Ok(gen_form(arg)),
        "array" => array_form(alloc, arg),
        "memptr" => member_form(alloc, arg),
        "inspect" => Ok(inspect_form(arg)),
        _ => Ok(None),
    }
}

// The command `run`, which takes no argument.
fn run_form(arg: Option<&str>, steps: Option<&str>, trace: bool) -> Option<Command>
    ensures { result ≡ run_form (option_map (λ s. s.now) arg.entry) (option_map (λ s. s.now) steps.entry) trace }
{
    if arg.is_some() {
        return None;
    }
    Some(Command::Run(budget_of(steps)?, trace))
}

// The command `paths`, which takes no argument and has no trace.
fn paths_form(arg: Option<&str>, steps: Option<&str>, trace: bool) -> Option<Command>
    ensures { result ≡ paths_form (option_map (λ s. s.now) arg.entry) (option_map (λ s. s.now) steps.entry) trace }
{
    if arg.is_some() || trace {
        return None;
    }
    Some(Command::Paths(budget_of(steps)?))
}

// The command `foreign`, which takes no argument and has no trace.
fn foreign_form(arg: Option<&str>, steps: Option<&str>, trace: bool) -> Option<Command>
    ensures { result ≡ foreign_form (option_map (λ s. s.now) arg.entry) (option_map (λ s. s.now) steps.entry) trace }
{
    if arg.is_some() || trace {
        return None;
    }
    Some(Command::Foreign(budget_of(steps)?))
}

// The command of what the words give, and None where that is no form.
fn form_of(
    alloc: Global,
    word: &str,
    arg: Option<&str>,
    steps: Option<&str>,
    trace: bool,
) -> Result<Option<Command>, NoMemory>
    ensures { IfOk result (λ found. found ≡ command_form word.now (option_map (λ s. s.now) arg.entry) (option_map (λ s. s.now) steps.entry) trace) }
{
    match word {
        "run" => Ok(run_form(arg, steps, trace)),
        "paths" => Ok(paths_form(arg, steps, trace)),
        "foreign" => Ok(foreign_form(arg, steps, trace)),
        _ => {
            if steps.is_some() || trace {
                return Ok(None);
            }
            plain_form(alloc, word, arg)
        }
    }
}

/// The command that the words, without the program's name, ask for, and None where they ask for none.
///
/// Errors: want of memory.
pub fn command_of(alloc: Global, words: &[String]) -> Result<Option<Command>, NoMemory>
    ensures { IfOk result (λ found. MatchOption found (IsCommand (map string_bytes words.now) → ⊥) (Says (map string_bytes words.now))) }
{
    let Some(matches) = matches_of(alloc, words)? else {
        return Ok(None);
    };
    // never met: the simple command refuses words without this one (`required`)
    let Some(word) = matches.get_str("command") else {
        return Ok(None);
    };
    let arg = matches.get_str("arg");
    let steps = matches.get_str("steps");
    form_of(alloc, word, arg, steps, has_trace(&matches))
}
