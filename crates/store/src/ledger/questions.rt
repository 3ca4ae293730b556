// The questions that are asked before a kind is asked.
ghost use Rattle.std.specs.Prelude.{◌≡◌, ◌<◌, ◌≤◌, MatchOption, nat_eq, position, slice_index, take};
ghost use Rattle.std.specs.Cmp.Lexicographic.{pointwise};
ghost use Rattle.store.specs.Attempt.{next_stamp};
ghost use Rattle.store.specs.Book.{world};
ghost use Rattle.calls.specs.Outcome.{asking, changing, merging};
ghost use Rattle.store.specs.Ledgers.{book};

use super::Ledger;
use crate::counts;
use calls::{Meeting, StoreFault, Version};
use kinds::Stamp;

impl<'a> Ledger<'a> {
    // The head of a branch.
    pub(crate) fn head(&self, branch: u8) -> Result<usize, StoreFault>
        ensures { result ≡ asking (world (book self.now)) branch }
    {
        if self.made == 0 {
            return Err(StoreFault::NoVersion);
        }
        self.head_if_there(branch)
            .ok_or(StoreFault::NoBranch(branch))
    }

    // The same, if there is such a branch.
    fn head_if_there(&self, branch: u8) -> Option<usize>
        ensures { MatchOption result (self.now.branches ≤ branch) (λ head. (branch < self.now.branches) × (head ≡ slice_index self.now.heads branch)) }
    {
        self.heads[..self.branches]
            .get(branch as usize)
            .map(|head| *head as usize)
    }

    // The head of a branch to which a version can be added.
    pub(crate) fn head_to_move(&self, branch: u8) -> Result<usize, StoreFault>
        ensures { result ≡ changing self.now.usable (world (book self.now)) branch }
    {
        let head = self.head(branch)?;
        if self.made >= self.usable {
            return Err(StoreFault::VersionsFull(branch));
        }
        Ok(head)
    }

    // How two branches meet in a merge.
    pub(crate) fn meet(&self, into: u8, from: u8) -> Result<Meeting, StoreFault>
        ensures { result ≡ merging self.now.usable (world (book self.now)) into from }
    {
        let first = self.head(into)?;
        let second = self.head_if_there(from).ok_or(StoreFault::NoSource(from))?;
        let ours = self.versions[first];
        let theirs = self.versions[second];
        if counts::within(&theirs, &ours) {
            return Ok(Meeting::Seen(first));
        }
        let shared = counts::branchwise(&ours, &theirs, u16::min);
        let base = self.lowest(&shared).ok_or(StoreFault::NoBase(into))?;
        if self.made >= self.usable {
            return Err(StoreFault::VersionsFull(into));
        }
        Ok(Meeting::Apart {
            base,
            first,
            second,
        })
    }

    // The lowest version that has seen just this.
    fn lowest(&self, seen: &Version) -> Option<usize>
        ensures { result ≡ position (λ v. pointwise nat_eq v.counts seen.now.counts) (take self.now.made self.now.versions.now) }
    {
        self.versions[..self.made]
            .iter()
            .position(|version| version == seen)
    }

    // The stamp of the next change on a branch.
    pub(crate) fn stamp(&self, branch: u8) -> Stamp
        ensures { result ≡ next_stamp (world (book self.now)) branch }
    {
        Stamp {
            event: (self.events + 1) as u16,
            branch,
        }
    }
}
