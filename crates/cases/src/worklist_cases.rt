// The worklist on a store: its four parts at their places, and which place a refusal names.
use crate::case::{
    Case, Line, answer, branch, change, changed, fork, merge, question, unfit, unheard, unknown,
    version,
};
use calls::{Action, Call, StoreFault};
use std::alloc::{AllocError, Global};
use worklists::{Operation, QUEUE, Query, REBUILDS, SKIPS, STALE};

fn work(branch: u8, operation: Operation) -> Call {
    Call::Act(Action::Change(branch, operation.change()))
}

fn ask(branch: u8, query: Query) -> Call {
    Call::Ask(branch, query.question())
}

// A dialogue by numbers alone, as in a log.
fn numbers() -> [Line; 9] {
    [
        (change(0, 0, 1, 7), changed(1, 0)),
        (fork(1), branch(1)),
        (change(0, 0, 2, 7), changed(2, 1)),
        (change(1, 0, 1, 7), changed(3, 1)),
        (merge(0, 1), version(4)),
        (question(0, 0, 1, 7), answer(1)),
        (change(5, 0, 1, 7), Err(StoreFault::NoBranch(5))),
        (change(0, 0, 9, 7), unknown(0)),
        (question(0, 2, 1, 0), answer(-1)),
    ]
}

fn parts() -> [Line; 21] {
    [
        (change(0, STALE, 1, 7), changed(1, 0)),
        (change(0, REBUILDS, 1, 2), changed(2, 2)),
        (change(0, QUEUE, 1, 9), changed(3, 1)),
        (change(0, SKIPS, 1, 30), changed(4, 30)),
        (fork(4), branch(1)),
        (work(0, Operation::Clear(7)), changed(5, 1)),
        (work(0, Operation::Rebuild(-1)), changed(6, 1)),
        (work(0, Operation::Take), changed(7, 9)),
        (work(0, Operation::Skip(5)), changed(8, 35)),
        (work(1, Operation::Mark(8)), changed(9, 0)),
        (work(1, Operation::Rebuild(40)), changed(10, 42)),
        (work(1, Operation::Put(3)), changed(11, 2)),
        (work(1, Operation::Skip(600)), changed(12, 630)),
        (merge(1, 0), version(13)),
        (ask(1, Query::IsStale(7)), answer(0)),
        (ask(1, Query::IsStale(8)), answer(1)),
        (ask(1, Query::Rebuilds), answer(41)),
        (ask(1, Query::FirstWaiting), answer(3)),
        (ask(1, Query::Waiting), answer(1)),
        (ask(1, Query::Skips), answer(635)),
        (ask(0, Query::Skips), answer(35)),
    ]
}

// Branch 0 fills the set, branch 1 the queue, and branch 2 each by one. Where set and queue both have too much, the set is named.
fn full(alloc: Global) -> Result<Vec<Line>, AllocError> {
    let mut lines = Vec::new(alloc);
    lines.extend_from_slice(&[
        (fork(0), branch(1)),
        (fork(0), branch(2)),
        (work(2, Operation::Mark(999)), changed(1, 0)),
        (work(2, Operation::Put(999)), changed(2, 1)),
    ])?;
    for object in 0..96u16 {
        let made = u32::from(object) + 3;
        lines.push((work(0, Operation::Mark(object)), changed(made, 0)))?;
    }
    for object in 0..64u16 {
        let made = u32::from(object) + 99;
        let waits = i64::from(object) + 1;
        lines.push((work(1, Operation::Put(object)), changed(made, waits)))?;
    }
    lines.extend_from_slice(&[
        (work(0, Operation::Mark(96)), unfit(STALE)),
        (work(1, Operation::Put(64)), unfit(QUEUE)),
        (merge(0, 2), unfit(STALE)),
        (merge(1, 2), unfit(QUEUE)),
        (merge(0, 1), version(163)),
        (merge(0, 2), unfit(STALE)),
        (ask(0, Query::IsStale(999)), answer(0)),
        (ask(0, Query::Waiting), answer(64)),
        (work(0, Operation::Clear(0)), changed(164, 1)),
        (merge(0, 2), unfit(QUEUE)),
        // and the set's part, which would fit now, is not kept
        (ask(0, Query::IsStale(999)), answer(0)),
        (work(0, Operation::Take), changed(165, 0)),
        (merge(0, 2), version(166)),
        (ask(0, Query::IsStale(999)), answer(1)),
        // the put of branch 2 has a lower event number than all of branch 1's
        (ask(0, Query::FirstWaiting), answer(999)),
    ])?;
    Ok(lines)
}

fn unknowns() -> [Line; 8] {
    [
        (
            work(0, Operation::Rebuild(1_000_000)),
            changed(1, 1_000_000),
        ),
        (work(0, Operation::Rebuild(1_000_001)), unknown(REBUILDS)),
        (work(0, Operation::Skip(-1_000_001)), unknown(SKIPS)),
        (change(0, QUEUE, 1, -1), unknown(QUEUE)),
        (change(0, 4, 1, 7), unknown(4)),
        (change(0, 4_294_967_295, 1, 7), unknown(4_294_967_295)),
        (question(0, SKIPS, 1, 1), unheard(SKIPS)),
        (question(0, 6, 1, 0), unheard(6)),
    ]
}

pub(crate) fn cases(alloc: Global) -> Result<Vec<Case>, AllocError> {
    Ok(vec![in alloc;
        Case::new(
            alloc,
            "a fresh mark, a branch that is not there and a verb that is not known, by numbers",
            &numbers()
        )?,
        Case::new(
            alloc,
            "four parts, each at its place, merge side by side",
            &parts()
        )?,
        Case::new(
            alloc,
            "where a part does not fit its place is named, and the set's where neither does",
            full(alloc)?.as_slice()
        )?,
        Case::new(
            alloc,
            "what no part knows is refused, by the place asked",
            &unknowns()
        )?,
    ]?)
}
