//! Contracts that are opened and take records, and what is told of them: tests alone.
#![tactic(auto)]

#[cfg(test)]
mod cases;
