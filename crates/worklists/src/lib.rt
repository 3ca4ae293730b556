// The worklist of a build team: which objects are stale, which wait to be rebuilt, how many were rebuilt and how many skipped.
#![tactic(auto)]

mod operation;
mod places;
mod query;
mod worklist;

pub use operation::Operation;
pub use places::{QUEUE, REBUILDS, SKIPS, STALE};
pub use query::Query;
pub use worklist::{Worklist, number};
