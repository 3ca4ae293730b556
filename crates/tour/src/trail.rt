// What each version and each branch has seen, as the log alone tells it: the calls, and which of them were accepted.
use calls::{Action, Call, Reply, StoreFault};
use std::alloc::{AllocError, Global};

#[derive(Drop)]
pub(crate) struct Trail {
    // of each version, the numbers of the events that it has seen, in order
    versions: Vec<Vec<u16>>,
    // the version of each branch
    heads: Vec<u32>,
    // how many events there are
    events: u16,
}

impl Trail {
    // The trail of a store just opened: branch 0 is at version 0, which has seen nothing.
    pub(crate) fn new(alloc: Global) -> Result<Trail, AllocError> {
        Ok(Trail {
            versions: vec![in alloc; Vec::new(alloc)]?,
            heads: vec![in alloc; 0]?,
            events: 0,
        })
    }

    // How many branches there are: at most 16, so that the number fits.
    pub(crate) fn branches(&self) -> u8 {
        u8::try_from(self.heads.len()).unwrap_or(u8::MAX)
    }

    // The version of a branch; 0 where there is no such branch.
    pub(crate) fn head(&self, branch: u8) -> u32 {
        self.heads.get(branch as usize).copied().unwrap_or(0)
    }

    // What a branch has seen.
    pub(crate) fn seen(&self, branch: u8) -> &[u16] {
        match self.versions.get(self.head(branch) as usize) {
            Some(seen) => seen.as_slice(),
            None => &[],
        }
    }

    // The number of the latest event.
    pub(crate) fn latest(&self) -> u16 {
        self.events
    }

    // One call more. What was refused adds nothing, nor does a question, nor a merge of what is seen already.
    pub(crate) fn follow(
        &mut self,
        alloc: Global,
        call: Call,
        outcome: Result<Reply, StoreFault>,
    ) -> Result<(), AllocError> {
        match (call, outcome) {
            (Call::Act(Action::Fork(version)), Ok(_)) => self.heads.push(version)?,
            (Call::Act(Action::Change(branch, _)), Ok(_)) => {
                self.events = self.events.saturating_add(1);
                self.add(alloc, branch, &[self.events])?;
            }
            (Call::Act(Action::Merge(into, from)), Ok(Reply::Version(version)))
                if version as usize == self.versions.len() => {
                let theirs = Vec::from_slice(alloc, self.seen(from))?;
                self.add(alloc, into, theirs.as_slice())?;
            }
            _ => {}
        }
        Ok(())
    }

    // A version more on a branch, which has seen these events too.
    fn add(&mut self, alloc: Global, branch: u8, more: &[u16]) -> Result<(), AllocError> {
        let mut seen = Vec::from_slice(alloc, self.seen(branch))?;
        for event in more {
            if !seen.contains(event) {
                seen.push(*event)?;
            }
        }
        seen.sort()?;
        let version = self.versions.len();
        self.versions.push(seen)?;
        if let Some(head) = self.heads.get_mut(branch as usize) {
            *head = u32::try_from(version).unwrap_or(u32::MAX);
        }
        Ok(())
    }
}
