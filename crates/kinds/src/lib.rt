// Kinds of value that branches hold and merge: what every kind owes, the counter, and pairs of kinds.
#![tactic(auto)]

mod calls;
mod counter;
mod fault;
mod kind;
mod model;
mod pair;

pub use calls::{Change, Question, Stamp};
pub use counter::Counter;
pub use fault::KindFault;
pub use kind::Kind;
pub use model::histories_cohere;
pub use pair::Pair;

#[cfg(test)]
mod tests;
