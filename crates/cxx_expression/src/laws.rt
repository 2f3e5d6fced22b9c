//! Laws of the pieces of a statement. Each does nothing.

ghost use Rattle.cxx_expression.specs.Laws.{PiecesAreComplete, ResultsAreAsked};

/// A piece of a statement has a fault, or it is typed: the rules leave no third case.
#[tactic(auto, using(crate::proofs::CompleteRights::pieces_are_complete))]
pub fn answered()
    ensures { PiecesAreComplete }
{}

/// The faults of a call whose function is found include those of its result: E19 for a void one, and those of the conversion
/// to what takes it; also where the receiver or an argument is refused.
#[tactic(auto, using(crate::proofs::Results::results_are_asked))]
pub fn results_are_asked()
    ensures { ResultsAreAsked }
{}
