//! Worked examples of the two kinds of record, run as tests.
#![tactic(auto)]

#[cfg(test)]
mod admitted;
#[cfg(test)]
mod inspections;
#[cfg(test)]
mod transfers;
#[cfg(test)]
mod worked;
