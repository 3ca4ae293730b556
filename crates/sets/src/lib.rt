// The set as a kind of value: objects that are marked and cleared, where a mark stands until a clear that saw it.
#![tactic(auto)]

mod marks;
mod set;
mod set_kind;

pub use marks::{EMPTY_ROW, Mark, SetForm};

#[cfg(test)]
mod tests;
