// Changes.
ghost use Rattle.std.specs.Prelude.{◌≡◌, ℕ, ℤ};
ghost use Rattle.calls.specs.declared.calls.Action.TheVariants.{Change as ChangeOf};
ghost use Rattle.calls.specs.declared.calls.Call.TheVariants.{Act};
ghost use Rattle.calls.specs.declared.calls.Reply.TheVariants.{Changed};
ghost use Rattle.store.specs.Attempt.{Attempted, past, replied};
ghost use Rattle.store.specs.Views.{memory};
ghost use Rattle.calls.specs.Outcome.{outcome};

use super::Store;
use calls::StoreFault;
use kinds::{Change, Kind};

impl<'a, K: Kind> Store<'a, K> {
    // Makes a change on a branch, and answers the new version and the kind's reply.
    pub fn change(&mut self, branch: u8, change: Change) -> Result<(u32, i64), StoreFault>
        ensures attempted { Attempted K.meaning K.represents (memory self.old) (Act (ChangeOf branch change)) (replied (λ (p : ℕ × ℤ). Changed p.0 p.1) result) (memory self.new) }
        ensures defined { replied (λ (p : ℕ × ℤ). Changed p.0 p.1) result ≡ outcome K.meaning self.old.ledger.usable (past (memory self.old)) (Act (ChangeOf branch change)) }
    {
        let head = self.ledger.head_to_move(branch)?;
        let mut value = *self.value(head);
        let stamp = self.ledger.stamp(branch);
        let reply = value.change(stamp, change)?;
        self.values[self.ledger.made] = value;
        let version = self.ledger.add_change(branch, change);
        Ok((version as u32, reply))
    }
}
