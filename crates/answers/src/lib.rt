//! What is proved of the questions themselves: each file, with a kind and a signing day, has one answer, which can be
//! computed from its bytes.
#![tactic(auto)]

ghost use Rattle.answers.specs.Worked.{WorkedAnswers};
ghost use Rattle.answers.specs.Unique.{OneAnswerChecking, ComputedAnswers};

use kinds::Kind;

/// No two results answer the bytes of a file, a kind and a signing day.
pub fn one_answer<K: Kind>(_kind: &K)
    ensures { OneAnswerChecking K.Kind.meaning.admits }
{}

/// What is computed from the bytes of a file, a kind and a signing day is the answer to them.
pub fn computed_answers<K: Kind>(_kind: &K)
    ensures { ComputedAnswers K.Kind.meaning.admits }
{}

/// The worked answers: File A passes, and each file that differs from it in one place is refused as told.
pub fn worked_answers()
    ensures { WorkedAnswers }
{}
