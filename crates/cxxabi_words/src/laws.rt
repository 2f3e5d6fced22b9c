//! Laws of words and commands. Each function is a law: its contract holds of all words.

ghost use Rattle.std.specs.Prelude.{◌≡◌, ◌≤◌, ◌⊎◌, ℕ, Bool, List};
ghost use Rattle.cxxabi_words.specs.Commands.{IsCommand, Says, most_asked_classes};
ghost use Rattle.cxxabi_words.specs.declared.command.Command.{Command};
ghost use Rattle.cxxabi_words.specs.declared.command.Command.TheVariants.{Array, Foreign, Gen, Paths, Run};
ghost use Rattle.foundation.specs.Limits.{most_steps};
ghost use Rattle.cxx_hierarchy.specs.Limits.{most_elements};

/// Words ask for one command.
pub fn one_command()
    ensures { (words : List (List ℕ)) (c d : Command) → Says words c → Says words d → c ≡ d }
{}

/// Words ask for a command, or they ask for none.
pub fn some_command()
    ensures { (words : List (List ℕ)) → IsCommand words ⊎ (IsCommand words → ⊥) }
{}

/// A command's numbers are within their limits.
pub fn few_said()
    ensures steps { (words : List (List ℕ)) (n : ℕ) (trace : Bool) → Says words (Run n trace) → (1 ≤ n) × (n ≤ most_steps) }
    ensures path_steps { (words : List (List ℕ)) (n : ℕ) → Says words (Paths n) → (1 ≤ n) × (n ≤ most_steps) }
    ensures foreign_steps { (words : List (List ℕ)) (n : ℕ) → Says words (Foreign n) → (1 ≤ n) × (n ≤ most_steps) }
    ensures classes { (words : List (List ℕ)) (n : ℕ) → Says words (Gen n) → (1 ≤ n) × (n ≤ most_asked_classes) }
    ensures elements { (words : List (List ℕ)) (class : List ℕ) (n : ℕ) → Says words (Array class n) → (1 ≤ n) × (n ≤ most_elements) }
{}
