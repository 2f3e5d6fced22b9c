//! The numbers that words say.

ghost use Rattle.std.specs.Prelude.{◌≡◌, option_map};
ghost use Rattle.std.specs.Char.{is_ascii_digit};
ghost use Rattle.std.specs.List.{list_all};
ghost use Rattle.cxxabi_words.specs.invariants.Asked.{budgeted, count_in_digits};

use foundation::MOST_STEPS;

/// The steps that a run may take where the words say none.
pub const BUDGET: u32 = 1_000_000;

/// The most digits of a number of steps.
const STEP_DIGITS: usize = 7;

// Whether all the bytes of a word are digits.
fn are_digits(word: &str) -> bool
    ensures { result ≡ list_all is_ascii_digit word.now }
{
    word.bytes().all(|b| b.is_ascii_digit())
}

// The number that at most so many digits say, and None where it is not from one to the most.
pub(crate) fn count_of(word: &str, places: usize, most: u32) -> Option<u32>
    ensures { result ≡ count_in_digits places most word.now }
{
    if word.len() > places || !are_digits(word) {
        return None;
    }
    let Ok(n) = word.parse::<u32>() else {
        return None;
    };
    if n == 0 || n > most {
        return None;
    }
    Some(n)
}

// The steps that a run may take, and None where the word says no such number.
pub(crate) fn budget_of(steps: Option<&str>) -> Option<u32>
    ensures { result ≡ budgeted (option_map (λ s. s.now) steps.entry) }
{
    match steps {
        Some(digits) => count_of(digits, STEP_DIGITS, MOST_STEPS),
        None => Some(BUDGET),
    }
}
