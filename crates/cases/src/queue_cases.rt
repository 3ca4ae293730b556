// The queue on a store: in which order items wait, who takes them, and how many fit.
use crate::case::{
    Case, Line, answer, branch, change, changed, fork, merge, question, unfit, unheard, unknown,
    version,
};
use calls::Call;
use std::alloc::{AllocError, Global};

fn put(branch: u8, item: i32) -> Call {
    change(branch, 0, 1, item)
}

fn take(branch: u8) -> Call {
    change(branch, 0, 2, 0)
}

fn first(branch: u8) -> Call {
    question(branch, 0, 1, 0)
}

fn waiting(branch: u8) -> Call {
    question(branch, 0, 2, 0)
}

fn order() -> [Line; 13] {
    [
        (put(0, 7), changed(1, 1)),
        (fork(0), branch(1)),
        (put(1, 6), changed(2, 1)),
        (put(0, 5), changed(3, 2)),
        (merge(0, 1), version(4)),
        (waiting(0), answer(3)),
        (first(0), answer(7)),
        (take(0), changed(5, 7)),
        (take(0), changed(6, 6)),
        (take(0), changed(7, 5)),
        (take(0), changed(8, -1)),
        (first(0), answer(-1)),
        (waiting(0), answer(0)),
    ]
}

fn two_takers() -> [Line; 11] {
    [
        (put(0, 5), changed(1, 1)),
        (fork(1), branch(1)),
        (take(0), changed(2, 5)),
        (take(1), changed(3, 5)),
        (merge(0, 1), version(4)),
        (waiting(0), answer(0)),
        (first(0), answer(-1)),
        // a put of the same item, later, is another put
        (put(1, 5), changed(5, 1)),
        (merge(0, 1), version(6)),
        (waiting(0), answer(1)),
        (first(0), answer(5)),
    ]
}

// Branch 0 puts one more and takes both, where branch 1 has seen the first alone.
fn takers_apart() -> [Line; 9] {
    [
        (put(0, 5), changed(1, 1)),
        (fork(1), branch(1)),
        (put(0, 6), changed(2, 2)),
        (take(0), changed(3, 5)),
        (take(0), changed(4, 6)),
        (take(1), changed(5, 5)),
        (take(1), changed(6, -1)),
        (merge(0, 1), version(7)),
        (waiting(0), answer(0)),
    ]
}

// A take passes over an earlier put that it has not seen.
fn unseen_put() -> [Line; 9] {
    [
        (fork(0), branch(1)),
        (put(1, 6), changed(1, 1)),
        (put(0, 5), changed(2, 1)),
        (take(0), changed(3, 5)),
        (merge(0, 1), version(4)),
        (first(0), answer(6)),
        (take(1), changed(5, 6)),
        (merge(1, 0), version(6)),
        (waiting(1), answer(0)),
    ]
}

fn full(alloc: Global) -> Result<Vec<Line>, AllocError> {
    let mut lines = Vec::new(alloc);
    for number in 1..65u8 {
        let item = i32::from(number);
        let waits = i64::from(number);
        lines.push((put(0, item), changed(u32::from(number), waits)))?;
    }
    lines.extend_from_slice(&[
        (put(0, 65), unfit(0)),
        (waiting(0), answer(64)),
        (take(0), changed(65, 1)),
        (put(0, 65), changed(66, 64)),
        (first(0), answer(2)),
        // another branch has one more, which is one too many together, until it takes it
        (fork(0), branch(1)),
        (put(1, 8), changed(67, 1)),
        (merge(0, 1), unfit(0)),
        (waiting(0), answer(64)),
        (take(1), changed(68, 8)),
        (merge(0, 1), version(69)),
        (waiting(0), answer(64)),
    ])?;
    Ok(lines)
}

fn unknowns() -> [Line; 10] {
    [
        (put(0, 65_535), changed(1, 1)),
        (put(0, 65_536), unknown(0)),
        (put(0, -1), unknown(0)),
        (change(0, 0, 2, 1), unknown(0)),
        (change(0, 0, 3, 0), unknown(0)),
        (change(0, 4, 1, 0), unknown(4)),
        (first(0), answer(65_535)),
        (question(0, 0, 1, 1), unheard(0)),
        (question(0, 0, 3, 0), unheard(0)),
        (question(0, 9, 1, 0), unheard(9)),
    ]
}

pub(crate) fn cases(alloc: Global) -> Result<Vec<Case>, AllocError> {
    Ok(vec![in alloc;
        Case::new(
            alloc,
            "puts wait in the order of their events, on whichever branches",
            &order()
        )?,
        Case::new(
            alloc,
            "two takers reply the same item, and merged it is gone once",
            &two_takers()
        )?,
        Case::new(
            alloc,
            "takers who have seen different puts leave none of them",
            &takers_apart()
        )?,
        Case::new(
            alloc,
            "a take leaves an earlier put that it has not seen",
            &unseen_put()
        )?,
        Case::new(
            alloc,
            "64 wait, and no more, by a put or by a merge",
            full(alloc)?.as_slice()
        )?,
        Case::new(
            alloc,
            "what it does not know is refused, by the place asked",
            &unknowns()
        )?,
    ]?)
}
