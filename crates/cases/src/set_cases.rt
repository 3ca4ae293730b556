// The set on a store: which marks a clear takes away, and how many rows fit.
use crate::case::{
    Case, Line, answer, branch, change, changed, fork, merge, question, unfit, unheard, unknown,
    version,
};
use calls::{Call, StoreFault};
use std::alloc::{AllocError, Global};

fn mark(branch: u8, object: i32) -> Call {
    change(branch, 0, 1, object)
}

fn clear(branch: u8, object: i32) -> Call {
    change(branch, 0, 2, object)
}

fn member(branch: u8, object: i32) -> Call {
    question(branch, 0, 1, object)
}

fn fresh_mark() -> [Line; 13] {
    [
        (mark(0, 7), changed(1, 0)),
        (fork(1), branch(1)),
        (clear(0, 7), changed(2, 1)),
        (mark(1, 7), changed(3, 1)),
        (member(0, 7), answer(0)),
        (member(1, 7), answer(1)),
        (merge(0, 1), version(4)),
        (member(0, 7), answer(1)),
        // the other way round it is the same, and merged again nothing is made
        (merge(1, 0), version(5)),
        (member(1, 7), answer(1)),
        (merge(1, 0), version(5)),
        // a clear that has seen both marks
        (clear(1, 7), changed(6, 1)),
        (member(1, 7), answer(0)),
    ]
}

// Branches 0 and 1 mark the same object, and each mark is cleared by a branch that has seen it alone.
fn two_clears() -> [Line; 14] {
    [
        (mark(0, 7), changed(1, 0)),
        (fork(0), branch(1)),
        (mark(1, 7), changed(2, 0)),
        (fork(1), branch(2)),
        (fork(2), branch(3)),
        (clear(2, 7), changed(3, 1)),
        (clear(3, 7), changed(4, 1)),
        (merge(2, 1), version(5)),
        (member(2, 7), answer(1)),
        (merge(3, 0), version(6)),
        (merge(0, 1), version(7)),
        (member(0, 7), answer(1)),
        (merge(2, 3), version(8)),
        (member(2, 7), answer(0)),
    ]
}

// A branch clears a mark that another branch makes anew: the new mark is another one, though at the same object and branch.
fn marked_anew() -> [Line; 11] {
    [
        (mark(0, 7), changed(1, 0)),
        (fork(1), branch(1)),
        (clear(1, 7), changed(2, 1)),
        (mark(0, 7), changed(3, 1)),
        (merge(1, 0), version(4)),
        (member(1, 7), answer(1)),
        (merge(0, 1), version(5)),
        (member(0, 7), answer(1)),
        (clear(0, 7), changed(6, 1)),
        (member(0, 7), answer(0)),
        (clear(0, 7), changed(7, 0)),
    ]
}

// Two branches mark the same object, and one clear has seen both marks.
fn one_clear() -> [Line; 9] {
    [
        (mark(0, 7), changed(1, 0)),
        (fork(0), branch(1)),
        (mark(1, 7), changed(2, 0)),
        (merge(0, 1), version(3)),
        (clear(0, 7), changed(4, 1)),
        (member(0, 7), answer(0)),
        (member(1, 7), answer(1)),
        (merge(1, 0), version(5)),
        (member(1, 7), answer(0)),
    ]
}

// Branches 0 and 2 go on from one version and each merges another, so that there is no base until a branch is made that has seen just what
// both have seen.
fn crosswise() -> [Line; 17] {
    [
        (mark(0, 1), changed(1, 0)),
        (fork(0), branch(1)),
        (mark(1, 2), changed(2, 0)),
        (fork(1), branch(2)),
        (fork(2), branch(3)),
        (mark(0, 3), changed(3, 0)),
        (merge(0, 1), version(4)),
        (mark(2, 4), changed(5, 0)),
        (merge(2, 3), version(6)),
        (merge(0, 2), Err(StoreFault::NoBase(0))),
        (fork(1), branch(4)),
        (merge(4, 3), version(7)),
        (merge(0, 2), version(8)),
        (member(0, 1), answer(1)),
        (member(0, 2), answer(1)),
        (member(0, 3), answer(1)),
        (member(0, 4), answer(1)),
    ]
}

// A branch marks as many objects as there are rows. It can mark its own once more, another object it can't, nor can another branch mark
// the same.
fn full(alloc: Global) -> Result<Vec<Line>, AllocError> {
    let mut lines = Vec::new(alloc);
    for number in 0..96u8 {
        let object = i32::from(number);
        lines.push((mark(0, object), changed(u32::from(number) + 1, 0)))?;
    }
    lines.extend_from_slice(&[
        (mark(0, 95), changed(97, 1)),
        (mark(0, 96), unfit(0)),
        (member(0, 96), answer(0)),
        (fork(97), branch(1)),
        (mark(1, 95), unfit(0)),
        (clear(1, 5), changed(98, 1)),
        (mark(1, 95), changed(99, 1)),
        (member(1, 5), answer(0)),
        (member(0, 5), answer(1)),
        (merge(0, 1), version(100)),
        (member(0, 5), answer(0)),
        (member(0, 95), answer(1)),
    ])?;
    Ok(lines)
}

// Two branches that fit, and together don't.
fn too_much_together(alloc: Global) -> Result<Vec<Line>, AllocError> {
    let mut lines = Vec::new(alloc);
    lines.push((fork(0), branch(1)))?;
    for number in 0..49u8 {
        let object = i32::from(number);
        let made = 2 * u32::from(number);
        lines.push((mark(0, object), changed(made + 1, 0)))?;
        lines.push((mark(1, object), changed(made + 2, 0)))?;
    }
    lines.extend_from_slice(&[
        (merge(0, 1), unfit(0)),
        (member(0, 0), answer(1)),
        (clear(1, 0), changed(99, 1)),
        (merge(0, 1), unfit(0)),
        (clear(1, 1), changed(100, 1)),
        (merge(0, 1), version(101)),
        (member(0, 0), answer(1)),
    ])?;
    Ok(lines)
}

fn unknowns() -> [Line; 9] {
    [
        (mark(0, 65_535), changed(1, 0)),
        (member(0, 65_535), answer(1)),
        (mark(0, 65_536), unknown(0)),
        (clear(0, -1), unknown(0)),
        (change(0, 0, 3, 7), unknown(0)),
        (change(0, 2, 1, 7), unknown(2)),
        (member(0, 65_536), unheard(0)),
        (question(0, 0, 2, 7), unheard(0)),
        (question(0, 1, 1, 7), unheard(1)),
    ]
}

pub(crate) fn cases(alloc: Global) -> Result<Vec<Case>, AllocError> {
    Ok(vec![in alloc;
        Case::new(
            alloc,
            "a mark stands until a clear that saw it",
            &fresh_mark()
        )?,
        Case::new(alloc, "a mark made anew is another mark", &marked_anew())?,
        Case::new(
            alloc,
            "one clear takes away all marks that it saw",
            &one_clear()
        )?,
        Case::new(
            alloc,
            "two clears that saw a mark each leave none",
            &two_clears()
        )?,
        Case::new(
            alloc,
            "a merge crosswise has no base, until a version has seen just that",
            &crosswise()
        )?,
        Case::new(
            alloc,
            "96 rows fit: a branch marks its own object again, and no other",
            full(alloc)?.as_slice()
        )?,
        Case::new(
            alloc,
            "a merge of two sides that do not fit together is refused, and alters nothing",
            too_much_together(alloc)?.as_slice()
        )?,
        Case::new(
            alloc,
            "what it does not know is refused, by the place asked",
            &unknowns()
        )?,
    ]?)
}
