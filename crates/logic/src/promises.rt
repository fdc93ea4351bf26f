// Theorems, each as the contract of a function that does nothing: without their proofs this crate is not proved.
ghost use Rattle.logic.specs.Promises.{EveryCheckHasOneOutcome, ReachedLinesAreMarked, RoundsAreFew};
ghost use Rattle.logic.specs.Trials.{TrialsPass};

use kinds::kind::Kind;

/// Every check comes to exactly one outcome, for every kind of value.
pub fn one_outcome<K: Kind>()
    ensures { EveryCheckHasOneOutcome K.model }
{}

/// The lines that a check works are just those that the asked line reaches.
pub fn reached_lines()
    ensures { ReachedLinesAreMarked }
{}

/// An until takes at most its rows, less those of its goal, plus one round.
pub fn few_rounds<K: Kind>()
    ensures { RoundsAreFew K.model }
{}

/// Every trial of the table comes out as it is to.
pub fn trials_pass()
    ensures { TrialsPass }
{}
