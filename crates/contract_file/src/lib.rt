//! The contract file: how it is read, and the questions that are asked of its bytes alone.
#![tactic(auto)]

mod asking;
mod calls;
mod chains;
mod faults;
mod files;
mod leading;
mod links;
mod marks;
mod pointers;
mod reach;
mod read_file;
mod reading;
mod theorems;
mod windows;

pub use asking::ask_each;
pub use chains::template_at;
pub use faults::Fault;
pub use files::{File, MOST_ENTRIES, MOST_TEMPLATES, PLACES};
pub use links::{Condition, Link, Links};
pub use read_file::ReadFile;
pub use reading::{FILE_BYTES, HEAD_BYTES, read};
pub use theorems::one_answer;
