// What branches say at the end of the story of the fresh mark, and what a merge by object numbers would have made of it.
use crate::log::Log;
use crate::numbers::merged;
use crate::story::{BOOT, BUILDER, COMMON, NETWORK, TEAM, WATCHER};
use crate::words::{Answered, listed, ranges};
use calls::StoreFault;
use store::Store;
use worklists::{Query, Worklist};

// The objects that the story speaks of.
const OBJECTS: [u16; 2] = [BOOT, NETWORK];

fn answer(store: &Store<'_, Worklist>, branch: u8, query: Query) -> Result<Answered, StoreFault> {
    let answer = store.ask(branch, query.question())?;
    Ok(Answered(query, answer))
}

// Those of the story's objects that are stale with a branch.
fn stale<R: AllocGlobal>(
    rt: &R,
    store: &Store<'_, Worklist>,
    branch: u8,
) -> anyhow::Result<Vec<u16>> {
    let mut objects = Vec::new(rt.alloc());
    for object in OBJECTS {
        if store.ask(branch, Query::IsStale(object).question())? == 1 {
            objects.push(object)?;
        }
    }
    Ok(objects)
}

// What a branch has seen, and what it says.
fn print_branch<R: Print + AllocGlobal>(
    rt: &R,
    store: &Store<'_, Worklist>,
    log: &Log,
    branch: u8,
) -> anyhow::Result<()> {
    let agent = log.agent(branch);
    let version = log.trail.head(branch);
    let seen = ranges(rt.alloc(), log.trail.seen(branch))?;
    let objects = stale(rt, store, branch)?;
    let objects = listed(rt.alloc(), objects.as_slice())?;
    let waiting = answer(store, branch, Query::Waiting)?;
    let first = answer(store, branch, Query::FirstWaiting)?;
    let rebuilds = answer(store, branch, Query::Rebuilds)?;
    let skips = answer(store, branch, Query::Skips)?;
    println!(rt; "   {agent}, version {version}, has seen {seen}:")?;
    println!(rt;
        "      stale {objects}; waiting {waiting}, first {first}; rebuilt {rebuilds}; skipped {skips}"
    )?;
    Ok(())
}

// What the branches of the story say at its end.
pub(crate) fn print_branches<R: Print + AllocGlobal>(
    rt: &R,
    store: &Store<'_, Worklist>,
    log: &Log,
) -> anyhow::Result<()> {
    let objects = listed(rt.alloc(), &OBJECTS)?;
    println!(rt; "\nWhat each branch has seen, and says (of the objects {objects})")?;
    for branch in 0..log.trail.branches() {
        print_branch(rt, store, log, branch)?;
    }
    Ok(())
}

fn print_objects<R: Print + AllocGlobal>(
    rt: &R,
    title: &str,
    objects: &[u16],
) -> anyhow::Result<()> {
    let objects = listed(rt.alloc(), objects)?;
    println!(rt; "   {title}: {objects}")?;
    Ok(())
}

// The merge of the builder and the watcher once more, on object numbers alone. The state from which both began is asked of a branch that is
// forked there.
pub(crate) fn print_merge_by_numbers<R: Print + AllocGlobal>(
    rt: &R,
    store: &mut Store<'_, Worklist>,
) -> anyhow::Result<()> {
    let alloc = rt.alloc();
    let began = store.fork(COMMON)?;
    let base = stale(rt, store, began)?;
    let first = stale(rt, store, BUILDER)?;
    let second = stale(rt, store, WATCHER)?;
    let seen = stale(rt, store, TEAM)?;
    let numbers = merged(alloc, base.as_slice(), first.as_slice(), second.as_slice())?;
    let dropped: Vec<u16> = seen
        .iter()
        .copied()
        .filter(|object| !numbers.contains(object))
        .collect(alloc)?;
    println!(rt;
        "\nWhat a merge of the builder and the watcher by object numbers would have said"
    )?;
    print_objects(rt, "stale at the version where both began", base.as_slice())?;
    print_objects(rt, "stale with the builder", first.as_slice())?;
    print_objects(rt, "stale with the watcher", second.as_slice())?;
    print_objects(rt, "merged by object numbers", numbers.as_slice())?;
    print_objects(
        rt,
        "merged by what was seen, with the team",
        seen.as_slice(),
    )?;
    print_objects(rt, "dropped by object numbers", dropped.as_slice())?;
    if second.as_slice() == base.as_slice() && !dropped.is_empty() {
        println!(rt;
            "   By numbers alone the watcher has changed nothing, so the builder's side is taken, and with it a clear that had not seen the watcher's mark."
        )?;
    }
    Ok(())
}
