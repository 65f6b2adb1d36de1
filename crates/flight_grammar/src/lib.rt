//! What reading a program of the component language word by word comes to.
//!
//! Nothing here runs. `specs/Reader.antt` is a reader of programs, a function on lists of words with one word of
//! foresight, which the parser is proved against. `specs/Verdict.antt` says, by the productions of
//! `flight_syntax` alone, what a list of words comes to, and [`reads_programs`] that the reader gives just that.
//! `specs/Outcome.antt` says what a whole text comes to, the faults of its names included, and [`one_outcome`]
//! that this is one thing.
#![tactic(auto)]

ghost use Rattle.std.specs.Prelude.{ℕ, List};
ghost use Rattle.flight_syntax.specs.Lexicon.{Word, AreReal};
ghost use Rattle.flight_grammar.specs.Outcome.{HasOneOutcome};
ghost use Rattle.flight_grammar.specs.Reader.{program};
ghost use Rattle.flight_grammar.specs.Verdict.{Verdict, StopsAtAnyDepth};

/// The reader gives the one program that the words spell, or the first word that no program continues with.
pub fn reads_programs()
    ensures { (words : List Word) → Verdict words (program words) }
{}

/// Where a text of words stops, and not because it is too deep, no program of any number of levels goes on with the
/// word that is there.
pub fn stops_at_any_depth()
    ensures { (words : List Word) → AreReal words → StopsAtAnyDepth words }
{}

/// A text comes to one outcome: the program that it is, or its first fault, and to no other.
pub fn one_outcome()
    ensures { (text : List ℕ) → HasOneOutcome text }
{}
