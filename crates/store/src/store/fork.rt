// Forks.
ghost use Rattle.calls.specs.declared.calls.Action.TheVariants.{Fork};
ghost use Rattle.calls.specs.declared.calls.Call.TheVariants.{Act};
ghost use Rattle.calls.specs.declared.calls.Reply.TheVariants.{Branch};
ghost use Rattle.store.specs.Attempt.{Attempted, past, replied};
ghost use Rattle.store.specs.Views.{memory};
ghost use Rattle.std.specs.Prelude.{◌≡◌};
ghost use Rattle.calls.specs.Outcome.{outcome};

use super::Store;
use calls::StoreFault;
use kinds::Kind;

impl<'a, K: Kind> Store<'a, K> {
    // Makes a branch whose head is a stored version, and answers its number.
    pub fn fork(&mut self, version: u32) -> Result<u8, StoreFault>
        ensures attempted { Attempted K.meaning K.represents (memory self.old) (Act (Fork version)) (replied Branch result) (memory self.new) }
        ensures defined { replied Branch result ≡ outcome K.meaning self.old.ledger.usable (past (memory self.old)) (Act (Fork version)) }
    {
        self.ledger.branch_off(version)
    }
}
