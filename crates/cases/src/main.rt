// Runs cases on stores of sets, queues and worklists, and ends with an error at the first call that has another outcome than it should.
#![tactic(auto)]

mod case;
mod example;
mod queue_cases;
mod set_cases;
mod worklist_cases;

use anyhow::ensure;
use case::follow_all;
use queues::Queue;
use sets::SetForm;
use worklists::Worklist;

fn main(rt: HostRuntime) -> anyhow::Result<()> {
    println!(rt; "Cases, each a list of calls on a store just opened")?;
    let sets = set_cases::cases(rt.alloc())?;
    follow_all::<SetForm>(&rt, "sets", sets.as_slice())?;
    let queues = queue_cases::cases(rt.alloc())?;
    follow_all::<Queue>(&rt, "queues", queues.as_slice())?;
    let worklists = worklist_cases::cases(rt.alloc())?;
    follow_all::<Worklist>(&rt, "worklists", worklists.as_slice())?;
    ensure!(
        example::is_stale()?,
        "the README's example: the object is not stale"
    );
    println!(rt; "\nThe README's example: the object is stale")?;
    println!(rt; "\nAll came out as they should.")?;
    Ok(())
}
