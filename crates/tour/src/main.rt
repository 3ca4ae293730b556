// Follows the work of build teams from beginning to end, on a store of worklists: how a merge is refused until there is a version to merge
// from, how a fresh mark outlives a clear that had not seen it, and what a merge by object numbers would have made of it.
#![tactic(auto)]

mod log;
mod numbers;
mod report;
mod story;
mod trail;
mod words;

use calls::{Step, Version};
use kinds::Kind;
use log::Log;
use store::Store;
use story::{CROSSWISE, FRESH_MARK};
use worklists::{Worklist, number};

const VERSIONS: usize = 32;

const BRANCHES: usize = 16;

// One for each version and each branch that are made: all but the first of each.
const STEPS: usize = VERSIONS - 1 + BRANCHES - 1;

fn main(rt: HostRuntime) -> anyhow::Result<()> {
    let mut versions = [Version::BLANK; VERSIONS];
    let mut values = [Worklist::empty(); VERSIONS];
    let mut steps = [Step::BLANK; STEPS];
    let mut store = Store::open(&mut versions, &mut values, &mut steps);
    let usable = store.usable();
    let kind = number();
    println!(rt;
        "A build team's worklist (kind {kind}), in a store with room for {usable} versions."
    )?;
    println!(rt;
        "In brackets stands what a call made, and what its branch had seen before it, or has seen since, by the numbers of events."
    )?;
    Log::follow(&rt, &mut store, &CROSSWISE)?;
    let log = Log::follow(&rt, &mut store, &FRESH_MARK)?;
    report::print_branches(&rt, &store, &log)?;
    report::print_merge_by_numbers(&rt, &mut store)
}
