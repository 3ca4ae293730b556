// What is asked of a store of branches, what is seen by it, and what it has to say: the calls, their faults, and the law of a run.
#![tactic(auto)]

mod calls;
mod fault;

pub use calls::{Action, Call, Meeting, Reply, Step, Version};
pub use fault::StoreFault;
