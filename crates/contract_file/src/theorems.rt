//! What is proved of the definitions themselves.
ghost use Rattle.contract_file.specs.Unique.{OneAnswerReading};

/// There is one answer to the bytes of each file that is read.
pub fn one_answer()
    ensures { OneAnswerReading }
{}
