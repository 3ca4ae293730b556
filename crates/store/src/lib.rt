// A store of versions and branches, in memory that the caller lends, for every kind of value.
#![tactic(auto)]

mod counts;
mod ledger;
mod store;

pub use store::Store;

#[cfg(test)]
mod tests;
