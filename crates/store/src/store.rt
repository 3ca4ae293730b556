// A store of versions and branches for values of any kind, in memory that the caller lends.
ghost use Rattle.std.specs.Prelude.{◌≤◌, length};
ghost use Rattle.store.specs.Held.{Held};
ghost use Rattle.store.specs.Ledgers.{book};

use crate::ledger::Ledger;
use kinds::Kind;

mod ask;
mod change;
mod fork;
mod merge;
mod open;
mod run;

#[derive(Drop)]
pub struct Store<'a, K: Kind> {
    ledger: Ledger<'a>,
    // the values of the ledger's versions
    values: &'a mut [K],
    ghost valued: { ledger.usable ≤ length values.now },
    // The value of each stored version stands for what the version has seen, so that no contract has to assume it. It is said that there
    // is a proof, and not which, since `represents` may be any relation.
    ghost held: { ∥ Held K.meaning K.represents (record { book = book ledger; values = values.now }) ∥₁ },
}
