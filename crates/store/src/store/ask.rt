// Questions.
ghost use Rattle.std.specs.Prelude.{◌≡◌, ◌<◌};
ghost use Rattle.calls.specs.declared.calls.Call.TheVariants.{Ask};
ghost use Rattle.calls.specs.declared.calls.Reply.TheVariants.{Answer};
ghost use Rattle.store.specs.Attempt.{Attempted, Reads, past, replied};
ghost use Rattle.store.specs.Views.{memory};
ghost use Rattle.calls.specs.Outcome.{outcome};

use super::Store;
use calls::StoreFault;
use kinds::{Kind, Question};

impl<'a, K: Kind> Store<'a, K> {
    // Answers a question on what a branch has seen.
    pub fn ask(&self, branch: u8, question: Question) -> Result<i64, StoreFault>
        ensures attempted { Attempted K.meaning K.represents (memory self.now) (Ask branch question) (replied Answer result) (memory self.now) }
        ensures defined { replied Answer result ≡ outcome K.meaning self.now.ledger.usable (past (memory self.now)) (Ask branch question) }
    {
        let head = self.ledger.head(branch)?;
        Ok(self.value(head).answer(question)?)
    }

    // The value of a stored version.
    pub(super) fn value(&self, version: usize) -> &K
        requires { version < self.now.ledger.made }
        ensures { Reads (memory self.now) version result.now }
    {
        // as a slice of its own: no part of what a `&mut` behind `&self` refers to can be lent
        let values = &*self.values;
        &values[version]
    }

    // How many versions can be stored.
    pub fn usable(&self) -> usize
        ensures { result ≡ self.now.ledger.usable }
    {
        self.ledger.usable
    }
}
