// Merges.
ghost use Rattle.calls.specs.declared.calls.Action.TheVariants.{Merge};
ghost use Rattle.calls.specs.declared.calls.Call.TheVariants.{Act};
ghost use Rattle.calls.specs.declared.calls.Reply.TheVariants.{Version as VersionMade};
ghost use Rattle.store.specs.Attempt.{Attempted, past, replied};
ghost use Rattle.store.specs.Views.{memory};
ghost use Rattle.std.specs.Prelude.{◌≡◌};
ghost use Rattle.calls.specs.Outcome.{outcome};

use super::Store;
use calls::{Meeting, StoreFault};
use kinds::Kind;

impl<'a, K: Kind> Store<'a, K> {
    // Adds to a branch all that another has seen, and answers the new version, or the head if there is nothing to add.
    pub fn merge(&mut self, into: u8, from: u8) -> Result<u32, StoreFault>
        ensures attempted { Attempted K.meaning K.represents (memory self.old) (Act (Merge into from)) (replied VersionMade result) (memory self.new) }
        ensures defined { replied VersionMade result ≡ outcome K.meaning self.old.ledger.usable (past (memory self.old)) (Act (Merge into from)) }
    {
        match self.ledger.meet(into, from)? {
            Meeting::Seen(head) => Ok(head as u32),
            Meeting::Apart {
                base,
                first,
                second,
            } => {
                let value = K::merge(self.value(base), self.value(first), self.value(second))?;
                self.values[self.ledger.made] = value;
                let version = self.ledger.add_merge(into, from);
                Ok(version as u32)
            }
        }
    }
}
