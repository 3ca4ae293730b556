// The example of the README, as it stands there.
use calls::{Step, StoreFault, Version};
use kinds::Kind;
use store::Store;
use worklists::{Operation, Query, Worklist};

pub(crate) fn is_stale() -> Result<bool, StoreFault> {
    let mut versions = [Version::BLANK; 32];
    let mut values = [Worklist::empty(); 32];
    let mut steps = [Step::BLANK; 46];
    let mut store = Store::open(&mut versions, &mut values, &mut steps);
    let (marked, _) = store.change(0, Operation::Mark(7).change())?;
    let agent = store.fork(marked)?;
    store.change(0, Operation::Clear(7).change())?;
    store.change(agent, Operation::Mark(7).change())?;
    store.merge(0, agent)?;
    Ok(store.ask(0, Query::IsStale(7).question())? == 1)
}
