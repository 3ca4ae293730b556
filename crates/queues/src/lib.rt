// The queue as a kind of value: items wait in the order in which they were put, and merge three-way.
#![tactic(auto)]

mod queue;
mod wait;

pub use queue::Queue;
pub use wait::Wait;
