// A case: a list of calls on a store just opened, each with the outcome that it should have.
use anyhow::bail;
use calls::{Action, Call, Reply, Step, StoreFault, Version};
use kinds::{Change, Kind, KindFault, Question};
use std::alloc::{AllocError, Global};
use store::Store;

pub(crate) type Outcome = Result<Reply, StoreFault>;

pub(crate) type Line = (Call, Outcome);

#[derive(Drop)]
pub(crate) struct Case {
    title: &'static str,
    lines: Vec<Line>,
}

impl Case {
    pub(crate) fn new(
        alloc: Global,
        title: &'static str,
        lines: &[Line],
    ) -> Result<Case, AllocError> {
        let lines = Vec::from_slice(alloc, lines)?;
        Ok(Case { title, lines })
    }
}

// ---- calls, by their numbers

pub(crate) fn fork(version: u32) -> Call {
    Call::Act(Action::Fork(version))
}

pub(crate) fn merge(into: u8, from: u8) -> Call {
    Call::Act(Action::Merge(into, from))
}

pub(crate) fn change(branch: u8, place: u32, verb: u8, argument: i32) -> Call {
    let change = Change {
        place,
        verb,
        argument,
    };
    Call::Act(Action::Change(branch, change))
}

pub(crate) fn question(branch: u8, place: u32, verb: u8, argument: i32) -> Call {
    let question = Question {
        place,
        verb,
        argument,
    };
    Call::Ask(branch, question)
}

// ---- outcomes

pub(crate) fn branch(number: u8) -> Outcome {
    Ok(Reply::Branch(number))
}

pub(crate) fn version(number: u32) -> Outcome {
    Ok(Reply::Version(number))
}

pub(crate) fn changed(version: u32, reply: i64) -> Outcome {
    Ok(Reply::Changed(version, reply))
}

pub(crate) fn answer(number: i64) -> Outcome {
    Ok(Reply::Answer(number))
}

// the kind refuses, with 21, 22 and 23

pub(crate) fn unknown(place: u32) -> Outcome {
    Err(StoreFault::OfKind(KindFault::UnknownChange(place)))
}

pub(crate) fn unfit(place: u32) -> Outcome {
    Err(StoreFault::OfKind(KindFault::DoesNotFit(place)))
}

pub(crate) fn unheard(place: u32) -> Outcome {
    Err(StoreFault::OfKind(KindFault::UnknownQuestion(place)))
}

// ---- cases on a store

// More versions than any case makes.
const VERSIONS: usize = 256;

const STEPS: usize = VERSIONS + 14;

// Runs a case, and stops at the first call with another outcome.
fn follow<K: Kind>(
    rt: &(impl Print + AllocGlobal),
    store: &mut Store<'_, K>,
    case: &Case,
) -> anyhow::Result<()> {
    let alloc = rt.alloc();
    let title = case.title;
    let calls: Vec<Call> = case.lines.iter().map(|line| line.0).collect(alloc)?;
    let mut outcomes = vec![in alloc; Err(StoreFault::NoVersion); calls.len()]?;
    let tried = store.run(calls.as_slice(), outcomes.as_mut_slice());
    let lines = case.lines.iter().zip(outcomes.iter());
    for (number, ((call, wanted), outcome)) in (1u32..).zip(lines) {
        if outcome != wanted {
            println!(rt;
                "   {title}: call {number}, {call:?}, came out as {outcome:?}, and not as {wanted:?}"
            )?;
            bail!("{title}: call {number} has another outcome than it should");
        }
    }
    println!(rt; "   {title} ({tried} calls)")?;
    Ok(())
}

// Runs the cases of a kind, and says how they came out.
pub(crate) fn follow_all<K: Kind>(
    rt: &(impl Print + AllocGlobal),
    name: &str,
    cases: &[Case],
) -> anyhow::Result<()> {
    let alloc = rt.alloc();
    let mut versions = vec![in alloc; Version::BLANK; VERSIONS]?;
    let mut values = vec![in alloc; K::empty(); VERSIONS]?;
    let mut steps = vec![in alloc; Step::BLANK; STEPS]?;
    let mut store = Store::open(
        versions.as_mut_slice(),
        values.as_mut_slice(),
        steps.as_mut_slice(),
    );
    let number = K::kind_number();
    println!(rt; "\nOn a store of {name}, kind {number}:")?;
    for case in cases {
        follow(rt, &mut store, case)?;
    }
    Ok(())
}
