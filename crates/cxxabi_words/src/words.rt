//! The simple command, and its matches of the words.

ghost use Rattle.std.specs.Prelude.{◌≡◌, [], IfOk, MatchOption, codes, map, string_bytes};
ghost use Rattle.clap.specs.Words.{app_of, fault_of, found_of, matches_of, one_of, rows_of};
ghost use Rattle.cxxabi_words.specs.Commands.{is_true, simple_command};

use clap::error::ErrorKind;
use clap::{Arg, ArgAction, ArgMatches};
use foundation::NoMemory;
use std::alloc::Global;

// The simple command that reads the words: COMMAND, ARG, `--steps` with one value, and `--trace`.
fn simple_command<'a>(alloc: Global) -> Result<clap::Command<'a>, NoMemory>
    ensures { IfOk result (λ simple. app_of simple ≡ simple_command) }
{
    let word = Arg::new(alloc, "command").required(true);
    let arg = Arg::new(alloc, "arg");
    let steps = Arg::new(alloc, "steps").long("steps");
    let trace = Arg::new(alloc, "trace")
        .long("trace")
        .action(ArgAction::SetTrue);
    let simple = clap::Command::new(alloc, "tagymelur")
        .no_binary_name(true)
        .arg(word)?
        .arg(arg)?
        .arg(steps)?
        .arg(trace)?;
    Ok(simple)
}

// What the simple command makes of the words, and None where it refuses them.
pub(crate) fn matches_of<'a>(
    alloc: Global,
    words: &'a [String],
) -> Result<Option<ArgMatches<'a>>, NoMemory>
    ensures { let texts = map string_bytes words.entry.now in IfOk result (λ found. MatchOption found (fault_of simple_command texts ≡ [] → ⊥)
        (λ m. (fault_of simple_command texts ≡ []) × (rows_of (found_of m) ≡ matches_of simple_command texts))) }
{
    let simple = simple_command(alloc)?;
    match simple.try_get_matches_from(words) {
        Ok(matches) => Ok(Some(matches)),
        Err(error) => match error.kind() {
            ErrorKind::OutOfMemory => Err(NoMemory),
            _ => Ok(None),
        },
    }
}

// Whether `--trace` is among the words. It reads as `get_flag` does, whose contract speaks only of the texts `true` and
// `false`.
pub(crate) fn has_trace(matches: &ArgMatches) -> bool
    ensures { result ≡ is_true (one_of (codes "trace") (rows_of (found_of matches.now))) }
{
    matches.get_one("trace").unwrap_or(false)
}
