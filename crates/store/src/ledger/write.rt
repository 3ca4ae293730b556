// What an accepted call writes. Numbers become indices and back by `as`: the check proves that nothing is lost, `try_from` would bring a fault
// that can't be, and `self.versions[usize::from(self.heads[usize::from(branch)])]`, tried, is no plainer.
ghost use Rattle.std.specs.Prelude.{◌≡◌, ◌<◌, true};
ghost use Rattle.calls.specs.declared.calls.Action.TheVariants.{Change as ChangeOf, Merge};
ghost use Rattle.store.specs.Book.{Appends, appended, forked, world};
ghost use Rattle.calls.specs.Outcome.{forking};
ghost use Rattle.calls.specs.Run.{possible};
ghost use Rattle.store.specs.Attempt.{Settled};
ghost use Rattle.store.specs.Ledgers.{book};

use super::Ledger;
use crate::counts;
use calls::{Action, Step, StoreFault, Version};
use kinds::Change;

impl<'a> Ledger<'a> {
    // A branch more, at a version.
    pub(crate) fn branch_off(&mut self, version: u32) -> Result<u8, StoreFault>
        ensures result { result ≡ forking (world (book self.old)) version }
        ensures written { Settled result (book self.new ≡ forked (book self.old) version) (book self.new ≡ book self.old) }
    {
        if self.made == 0 {
            return Err(StoreFault::NoVersion);
        }
        if version as usize >= self.made {
            return Err(StoreFault::NotStored(version));
        }
        if self.branches >= 16 {
            return Err(StoreFault::BranchesFull);
        }
        let branch = self.branches;
        let action = Action::Fork(version);
        self.steps[self.taken] = Step { action };
        self.heads[branch] = version as u16;
        self.taken += 1;
        self.branches += 1;
        Ok(branch as u8)
    }

    // A version more on a branch, which has seen a change more.
    pub(crate) fn add_change(&mut self, branch: u8, change: Change) -> usize
        requires { possible self.old.usable (world (book self.old)) (ChangeOf branch change) ≡ true }
        ensures number { result ≡ self.old.made }
        ensures written { book self.new ≡ appended (book self.old) (ChangeOf branch change) branch }
    {
        let action = Action::Change(branch, change);
        let mut version = self.versions[self.heads[branch as usize] as usize];
        version.counts[branch as usize] += 1;
        let events = self.events + 1;
        self.append(action, branch, version, events)
    }

    // A version more on a branch, which has seen all that another has seen.
    pub(crate) fn add_merge(&mut self, into: u8, from: u8) -> usize
        requires { possible self.old.usable (world (book self.old)) (Merge into from) ≡ true }
        ensures number { result ≡ self.old.made }
        ensures written { book self.new ≡ appended (book self.old) (Merge into from) into }
    {
        let action = Action::Merge(into, from);
        let ours = self.versions[self.heads[into as usize] as usize];
        let theirs = self.versions[self.heads[from as usize] as usize];
        let version = counts::branchwise(&ours, &theirs, u16::max);
        let events = self.events;
        self.append(action, into, version, events)
    }

    // The step, the version, and the head that moves to it.
    fn append(&mut self, action: Action, branch: u8, version: Version, events: usize) -> usize
        requires there { branch < self.old.branches }
        requires room { self.old.made < self.old.usable }
        requires appends { Appends self.old.usable (world (book self.old)) action branch version events }
        ensures number { result ≡ self.old.made }
        ensures written { book self.new ≡ appended (book self.old) action branch }
    {
        let made = self.made;
        self.versions[made] = version;
        self.steps[self.taken] = Step { action };
        self.heads[branch as usize] = made as u16;
        self.taken += 1;
        self.made += 1;
        self.events = events;
        made
    }
}
