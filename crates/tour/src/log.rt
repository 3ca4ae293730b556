// A story as a log: who did what, what each had seen, and what came of it.
use crate::story::{Deed, Story};
use crate::trail::Trail;
use crate::words::{Answered, Asked, Done, Replied, ranges};
use calls::{Call, Reply, StoreFault};
use std::alloc::{AllocError, Global};
use store::Store;
use worklists::Worklist;

type Outcome = Result<Reply, StoreFault>;

#[derive(Drop)]
pub(crate) struct Log {
    agents: &'static [&'static str],
    pub trail: Trail,
}

impl Log {
    // Runs all calls of a story in a row, and then prints what came of each.
    pub(crate) fn follow<R: Print + AllocGlobal>(
        rt: &R,
        store: &mut Store<'_, Worklist>,
        story: &Story,
    ) -> anyhow::Result<Log> {
        let alloc = rt.alloc();
        let deeds = story.scenes.iter().flat_map(|scene| scene.deeds.iter());
        let calls: Vec<Call> = deeds.map(|deed| deed.call()).collect(alloc)?;
        let mut outcomes = vec![in alloc; Err(StoreFault::NoVersion); calls.len()]?;
        let tried = store.run(calls.as_slice(), outcomes.as_mut_slice());
        println!(rt; "\n{}: {tried} calls, run in a row", story.title)?;
        let mut log = Log {
            agents: story.agents,
            trail: Trail::new(alloc)?,
        };
        let mut rest = outcomes.as_slice();
        for scene in story.scenes {
            println!(rt; "\n{}", scene.why)?;
            let (now, later) = rest
                .split_at_checked(scene.deeds.len())
                .unwrap_or((rest, &[]));
            log.scene(rt, scene.deeds, now)?;
            rest = later;
        }
        Ok(log)
    }

    fn scene<R: Print + AllocGlobal>(
        &mut self,
        rt: &R,
        deeds: &[Deed],
        outcomes: &[Outcome],
    ) -> anyhow::Result<()> {
        for (deed, outcome) in deeds.iter().zip(outcomes.iter()) {
            let line = self.line(rt.alloc(), *deed, *outcome)?;
            println!(rt; "   {line}")?;
        }
        Ok(())
    }

    // The line of a call, as in 'builder clears object 7: it was stale [event 7, version 7; had seen 1-6]'.
    fn line(&mut self, alloc: Global, deed: Deed, outcome: Outcome) -> Result<String, AllocError> {
        let branch = self.branch(deed);
        let agent = self.agent(branch);
        let done = self.done(alloc, deed)?;
        let before = ranges(alloc, self.trail.seen(branch))?;
        let head = self.trail.head(branch);
        self.trail.follow(alloc, deed.call(), outcome)?;
        let seen = ranges(alloc, self.trail.seen(branch))?;
        let reply = match outcome {
            Ok(reply) => reply,
            Err(fault) => return format!(in alloc; "{agent} {done}: refused, {fault}"),
        };
        let came = came(alloc, deed, reply, head)?;
        if let Reply::Changed(version, _) = reply {
            let event = self.trail.latest();
            return format!(in alloc;
                "{agent} {done}: {came} [event {event}, version {version}; had seen {before}]"
            );
        }
        format!(in alloc; "{agent} {done}: {came} [has seen {seen}]")
    }

    // The branch on which something is done: for a fork, the one that it makes.
    fn branch(&self, deed: Deed) -> u8 {
        match deed {
            Deed::Fork { .. } => self.trail.branches(),
            Deed::Work(branch, _) | Deed::Ask(branch, _) => branch,
            Deed::Merge { into, .. } => into,
        }
    }

    // Who works on a branch.
    pub(crate) fn agent(&self, branch: u8) -> &'static str {
        self.agents
            .get(branch as usize)
            .copied()
            .unwrap_or("nobody")
    }

    fn done(&self, alloc: Global, deed: Deed) -> Result<String, AllocError> {
        match deed {
            Deed::Fork { at } => format!(in alloc; "forks at version {at}"),
            Deed::Work(_, operation) => Done(operation).to_string(alloc),
            Deed::Merge { from, .. } => format!(in alloc; "merges {}", self.agent(from)),
            Deed::Ask(_, query) => Asked(query).to_string(alloc),
        }
    }
}

// What comes of a call, on a branch that had this head before, in words.
fn came(alloc: Global, deed: Deed, reply: Reply, head: u32) -> Result<String, AllocError> {
    match reply {
        Reply::Branch(branch) => format!(in alloc; "branch {branch}"),
        Reply::Version(version) if version == head => {
            format!(in alloc; "nothing new, still version {version}")
        }
        Reply::Version(version) => format!(in alloc; "version {version}"),
        Reply::Changed(_, reply) => match deed {
            Deed::Work(_, operation) => Replied(operation, reply).to_string(alloc),
            _ => reply.to_string(alloc),
        },
        Reply::Answer(answer) => match deed {
            Deed::Ask(_, query) => Answered(query, answer).to_string(alloc),
            _ => answer.to_string(alloc),
        },
    }
}
