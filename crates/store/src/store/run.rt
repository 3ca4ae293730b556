// Calls, one by one and in a row.
ghost use Rattle.std.specs.Prelude.{◌≡◌, ℕ, min, length, take, drop};
ghost use Rattle.calls.specs.declared.calls.Call.TheVariants.{Act};
ghost use Rattle.store.specs.Attempt.{Attempted, Ran, past};
ghost use Rattle.calls.specs.Run.{Lawful, log_of};
ghost use Rattle.store.specs.Views.{memory};
ghost use Rattle.calls.specs.Outcome.{outcome};

use super::Store;
use calls::{Action, Call, Reply, StoreFault};
use kinds::Kind;

impl<'a, K: Kind> Store<'a, K> {
    pub fn act(&mut self, action: Action) -> Result<Reply, StoreFault>
        ensures attempted { Attempted K.meaning K.represents (memory self.old) (Act action) result (memory self.new) }
        ensures defined { result ≡ outcome K.meaning self.old.ledger.usable (past (memory self.old)) (Act action) }
    {
        match action {
            Action::Fork(version) => Ok(Reply::Branch(self.fork(version)?)),
            Action::Change(branch, change) => {
                let (version, reply) = self.change(branch, change)?;
                Ok(Reply::Changed(version, reply))
            }
            Action::Merge(into, from) => Ok(Reply::Version(self.merge(into, from)?)),
        }
    }

    pub fn attempt(&mut self, call: Call) -> Result<Reply, StoreFault>
        ensures attempted { Attempted K.meaning K.represents (memory self.old) call result (memory self.new) }
        ensures defined { result ≡ outcome K.meaning self.old.ledger.usable (past (memory self.old)) call }
    {
        match call {
            Call::Act(action) => self.act(action),
            Call::Ask(branch, question) => Ok(Reply::Answer(self.ask(branch, question)?)),
        }
    }

    // Opens the store again and tries each call in turn, refused or not, as many as `outcomes` has room for. This is the call that
    // carries the law of a run.
    pub fn run(&mut self, calls: &[Call], outcomes: &mut [Result<Reply, StoreFault>]) -> usize
        ensures number { result ≡ min (length calls.now) (length outcomes.old) }
        ensures lawful { Lawful K.meaning self.old.ledger.usable (log_of (take result calls.now) (take result outcomes.new)) }
        ensures ran { Ran K.meaning K.represents (memory self.old) (log_of (take result calls.now) (take result outcomes.new)) (memory self.new) }
        ensures rest { drop result outcomes.new ≡ drop result outcomes.old }
    {
        self.reopen();
        let number = calls.len().min(outcomes.len());
        // `outcomes` by index: under a `zip` with `iter_mut`, tried, no invariant can name what was written.
        for (i, call) in calls[..number].iter().enumerate() {
            outcomes[i] = self.attempt(*call);
        }
        number
    }
}
