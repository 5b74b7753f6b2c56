//! The first line of a report.
ghost use Rattle.std.specs.Prelude.{Some};
ghost use Rattle.vetting.specs.Told.{line_of};

use contract_file::Fault;
use std::fmt;

/// The line of an answer: `ok`, or `no` with the question and the entry at fault.
#[derive(Clone, Copy)]
pub struct Verdict(pub Result<(), Fault>);

impl fmt::Display for Verdict {
    ghost output = { λ verdict. Some (line_of verdict.0) };

    fn fmt<W: fmt::Write>(&self, f: &mut fmt::Formatter<W>) -> fmt::Result {
        match self.0 {
            Ok(()) => writeln!(f, "ok"),
            Err(fault) => {
                let question = fault.number();
                let entry = fault.entry();
                writeln!(f, "no {question} {entry}")
            }
        }
    }
}
