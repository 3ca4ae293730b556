// Two stories of a build team: what its agents do to a worklist, in the order of the calls, and why.
use calls::{Action, Call};
use worklists::{Operation, Query};

// What is done, by branch numbers: a fork makes the next branch.
#[derive(Clone, Copy)]
pub(crate) enum Deed {
    Fork { at: u32 },
    Work(u8, Operation),
    Merge { from: u8, into: u8 },
    Ask(u8, Query),
}

impl Deed {
    // The call on a store that does it.
    pub(crate) fn call(self) -> Call {
        match self {
            Deed::Fork { at } => Call::Act(Action::Fork(at)),
            Deed::Work(branch, operation) => Call::Act(Action::Change(branch, operation.change())),
            Deed::Merge { from, into } => Call::Act(Action::Merge(into, from)),
            Deed::Ask(branch, query) => Call::Ask(branch, query.question()),
        }
    }
}

#[derive(Clone, Copy)]
pub(crate) struct Scene {
    pub why: &'static str,
    pub deeds: &'static [Deed],
}

#[derive(Clone, Copy)]
pub(crate) struct Story {
    pub title: &'static str,
    // who works on each branch, in the order of the forks
    pub agents: &'static [&'static str],
    pub scenes: &'static [Scene],
}

pub(crate) const TEAM: u8 = 0;

pub(crate) const BUILDER: u8 = 1;

pub(crate) const WATCHER: u8 = 2;

// The objects of the story of the fresh mark.
pub(crate) const BOOT: u16 = 7;

pub(crate) const NETWORK: u16 = 12;

// The last version before its agents go on apart.
pub(crate) const COMMON: u32 = 4;

// One above the most that is added to a count at once.
const MISTYPED: i32 = 1_000_001;

// A mark that a clear has not seen, with all that goes on around it.
pub(crate) const FRESH_MARK: Story = Story {
    title: "The mark that a clear had not seen",
    agents: &["team", "builder", "watcher"],
    scenes: &[
        Scene {
            why: "1. The boot code, object 7, and the network code, object 12, are stale and wait to be rebuilt.",
            deeds: &[
                Deed::Work(TEAM, Operation::Mark(BOOT)),
                Deed::Work(TEAM, Operation::Mark(NETWORK)),
                Deed::Work(TEAM, Operation::Put(BOOT)),
                Deed::Work(TEAM, Operation::Put(NETWORK)),
            ],
        },
        Scene {
            why: "2. Two agents go on from there: one that builds, and one that watches the environment.",
            deeds: &[Deed::Fork { at: COMMON }, Deed::Fork { at: COMMON }],
        },
        Scene {
            why: "3. The builder takes the first object, rebuilds it, and clears its mark.",
            deeds: &[
                Deed::Work(BUILDER, Operation::Take),
                Deed::Work(BUILDER, Operation::Rebuild(1)),
                Deed::Work(BUILDER, Operation::Clear(BOOT)),
            ],
        },
        Scene {
            why: "4. Meanwhile an environment variable changes. The watcher, who has seen none of that, marks object 7 again, takes it too, and skips it for now.",
            deeds: &[
                Deed::Work(WATCHER, Operation::Mark(BOOT)),
                Deed::Work(WATCHER, Operation::Take),
                Deed::Work(WATCHER, Operation::Skip(1)),
            ],
        },
        Scene {
            why: "5. The team takes over the builder's work: object 7 is stale no more.",
            deeds: &[
                Deed::Merge {
                    from: BUILDER,
                    into: TEAM,
                },
                Deed::Ask(TEAM, Query::IsStale(BOOT)),
            ],
        },
        Scene {
            why: "6. Then the watcher's. The clear had not seen its mark, so object 7 is stale. What both took is gone from the queue once.",
            deeds: &[
                Deed::Merge {
                    from: WATCHER,
                    into: TEAM,
                },
                Deed::Ask(TEAM, Query::IsStale(BOOT)),
                Deed::Ask(TEAM, Query::Waiting),
                Deed::Ask(TEAM, Query::FirstWaiting),
                Deed::Ask(TEAM, Query::Rebuilds),
                Deed::Ask(TEAM, Query::Skips),
            ],
        },
        Scene {
            why: "7. Object 7 is stale and waits no more, so the team puts it into the queue again.",
            deeds: &[Deed::Work(TEAM, Operation::Put(BOOT))],
        },
        Scene {
            why: "8. A slip of the builder's, more than a million rebuilds at once, is refused and alters nothing (place 1 is their count). Merged once more, its work adds nothing.",
            deeds: &[
                Deed::Work(BUILDER, Operation::Rebuild(MISTYPED)),
                Deed::Merge {
                    from: BUILDER,
                    into: TEAM,
                },
                Deed::Ask(TEAM, Query::Rebuilds),
            ],
        },
    ],
};

const AGENT_1: u8 = 1;

const AGENT_2: u8 = 2;

const AGENT_3: u8 = 3;

const AGENT_4: u8 = 4;

// Two branches go on from one version and each merges another, so that no version has seen just what both have seen.
pub(crate) const CROSSWISE: Story = Story {
    title: "Work taken over crosswise",
    agents: &["team", "agent 1", "agent 2", "agent 3", "agent 4"],
    scenes: &[
        Scene {
            why: "1. The team and an agent begin apart. Amounts of 1, 2, 4 and 8 show which changes are in a count.",
            deeds: &[
                Deed::Work(TEAM, Operation::Rebuild(1)),
                Deed::Fork { at: 0 },
                Deed::Work(AGENT_1, Operation::Rebuild(2)),
            ],
        },
        Scene {
            why: "2. Two more agents take over, one from each.",
            deeds: &[Deed::Fork { at: 1 }, Deed::Fork { at: 2 }],
        },
        Scene {
            why: "3. The team and agent 2 both go on from version 1, and then each merges version 2 by itself.",
            deeds: &[
                Deed::Work(TEAM, Operation::Rebuild(4)),
                Deed::Merge {
                    from: AGENT_1,
                    into: TEAM,
                },
                Deed::Work(AGENT_2, Operation::Rebuild(8)),
                Deed::Merge {
                    from: AGENT_3,
                    into: AGENT_2,
                },
            ],
        },
        Scene {
            why: "4. Both have seen the events 1 and 2, and no version just these: there is no base to merge from.",
            deeds: &[
                Deed::Merge {
                    from: AGENT_2,
                    into: TEAM,
                },
                Deed::Ask(TEAM, Query::Rebuilds),
            ],
        },
        Scene {
            why: "5. A branch that has seen just these gives a base. Then each change counts once: 1 + 2 + 4 + 8.",
            deeds: &[
                Deed::Fork { at: 1 },
                Deed::Merge {
                    from: AGENT_3,
                    into: AGENT_4,
                },
                Deed::Merge {
                    from: AGENT_2,
                    into: TEAM,
                },
                Deed::Ask(TEAM, Query::Rebuilds),
            ],
        },
    ],
};
