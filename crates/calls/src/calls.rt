// What is asked of a store, what it replies, and what it keeps in memory that a caller lends.
use kinds::{Change, Question};

// A call that can make a branch or a version.
#[derive(Clone, Copy, PartialEq, Eq, Debug)]
pub enum Action {
    // at a version
    Fork(u32),
    // on a branch
    Change(u8, Change),
    // into the first branch, from the second
    Merge(u8, u8),
}

#[derive(Clone, Copy, PartialEq, Eq, Debug)]
pub enum Call {
    Act(Action),
    // to a branch
    Ask(u8, Question),
}

// What an accepted call answers.
#[derive(Clone, Copy, PartialEq, Eq, Debug)]
pub enum Reply {
    // a fork: the new branch
    Branch(u8),
    // a merge: the head of the destination, which is new unless there was nothing to merge
    Version(u32),
    // a change: the new version, and the kind's reply
    Changed(u32, i64),
    Answer(i64),
}

// An accepted call that made a branch or a version.
#[derive(Clone, Copy, PartialEq, Eq, Debug)]
pub struct Step {
    pub action: Action,
}

impl Step {
    // What memory can be filled with before it is lent.
    pub const BLANK: Step = Step {
        action: Action::Fork(0),
    };
}

// What a version has seen: of each branch 0 to 15, how many of its events.
#[derive(Clone, Copy, PartialEq, Eq, Debug)]
pub struct Version {
    pub counts: [u16; 16],
}

impl Version {
    // The record of a version that has seen nothing.
    pub const BLANK: Version = Version { counts: [0; 16] };
}

// How two branches meet in a merge, by their versions.
#[derive(Clone, Copy, PartialEq, Eq, Debug)]
pub enum Meeting {
    // the destination, whose head this is, has seen all that the source has
    Seen(usize),
    // the base, the head of the destination and that of the source
    Apart {
        base: usize,
        first: usize,
        second: usize,
    },
}
