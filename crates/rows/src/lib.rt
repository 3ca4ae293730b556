// Rows with a total order of keys, and the one three-way joining of rows that serves every sort of them.
#![tactic(auto)]

mod joining;
mod keyed;

pub use joining::{join, rising};
pub use keyed::Row;

#[cfg(test)]
mod tests;
