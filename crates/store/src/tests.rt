// Dialogues with a store of counts, at its limits too.
use crate::Store;
use calls::{Action, Call, Reply, Step, StoreFault, Version};
use kinds::{Change, Counter, Kind, KindFault, Question};
use std::process::Abort;
use std::test::Fail;

// Memory to lend, for `V` versions, `N` values and `S` steps.
#[derive(Drop)]
struct Memory<const V: usize, const N: usize, const S: usize> {
    versions: [Version; V],
    values: [Counter; N],
    steps: [Step; S],
}

impl<const V: usize, const N: usize, const S: usize> Memory<V, N, S> {
    fn new() -> Memory<V, N, S> {
        Memory {
            versions: [Version::BLANK; V],
            values: [Counter::empty(); N],
            steps: [Step::BLANK; S],
        }
    }

    fn store(&mut self) -> Store<'_, Counter> {
        Store::open(&mut self.versions, &mut self.values, &mut self.steps)
    }
}

type Large = Memory<32, 32, 46>;

// Room for seven versions: 0 to 6.
type Small = Memory<7, 7, 21>;

type Line = (Call, Result<Reply, StoreFault>);

// What stands where no outcome was written.
const UNTRIED: Result<Reply, StoreFault> = Ok(Reply::Answer(77));

fn add(branch: u8, argument: i32) -> Call {
    let change = Change {
        place: 0,
        verb: 1,
        argument,
    };
    Call::Act(Action::Change(branch, change))
}

fn fork(version: u32) -> Call {
    Call::Act(Action::Fork(version))
}

fn merge(into: u8, from: u8) -> Call {
    Call::Act(Action::Merge(into, from))
}

fn count(branch: u8) -> Call {
    let question = Question {
        place: 0,
        verb: 1,
        argument: 0,
    };
    Call::Ask(branch, question)
}

// A question that no counter knows.
fn riddle(branch: u8) -> Call {
    let question = Question {
        place: 3,
        verb: 9,
        argument: 0,
    };
    Call::Ask(branch, question)
}

// Each call has the outcome that stands beside it.
fn dialogue(rt: &impl Abort, store: &mut Store<'_, Counter>, lines: &[Line]) {
    for line in lines {
        let (call, outcome) = *line;
        assert_eq!(rt; store.attempt(call), outcome);
    }
}

// A count of 10, from which branch 0 goes on to 13 and branch 1 to 6.
fn apart() -> [Line; 4] {
    [
        (add(0, 10), Ok(Reply::Changed(1, 10))),
        (fork(1), Ok(Reply::Branch(1))),
        (add(0, 3), Ok(Reply::Changed(2, 13))),
        (add(1, -4), Ok(Reply::Changed(3, 6))),
    ]
}

#[test]
fn merges_what_was_done_apart_and_nothing_twice(rt: HostRuntime) {
    let mut memory = Large::new();
    let mut store = memory.store();
    dialogue(&rt, &mut store, &apart());
    dialogue(
        &rt,
        &mut store,
        &[
            (merge(0, 1), Ok(Reply::Version(4))),
            (count(0), Ok(Reply::Answer(9))),
            (count(1), Ok(Reply::Answer(6))),
            (merge(0, 1), Ok(Reply::Version(4))),
            (merge(0, 0), Ok(Reply::Version(4))),
            (merge(1, 0), Ok(Reply::Version(5))),
            (count(0), Ok(Reply::Answer(9))),
            (count(1), Ok(Reply::Answer(9))),
        ],
    );
}

// Branches 0 and 2 go on from version 1, and each merges version 2: both have seen the changes 1 and 2, and no version just these.
fn criss_cross() -> [Line; 9] {
    [
        (add(0, 1), Ok(Reply::Changed(1, 1))),
        (fork(0), Ok(Reply::Branch(1))),
        (add(1, 2), Ok(Reply::Changed(2, 2))),
        (fork(1), Ok(Reply::Branch(2))),
        (fork(2), Ok(Reply::Branch(3))),
        (add(0, 4), Ok(Reply::Changed(3, 5))),
        (merge(0, 1), Ok(Reply::Version(4))),
        (add(2, 8), Ok(Reply::Changed(5, 9))),
        (merge(2, 3), Ok(Reply::Version(6))),
    ]
}

#[test]
fn merges_a_criss_cross_once_there_is_a_base(rt: HostRuntime) {
    let mut memory = Large::new();
    let mut store = memory.store();
    dialogue(&rt, &mut store, &criss_cross());
    dialogue(
        &rt,
        &mut store,
        &[
            (merge(0, 2), Err(StoreFault::NoBase(0))),
            (count(0), Ok(Reply::Answer(7))),
            (fork(1), Ok(Reply::Branch(4))),
            (merge(4, 3), Ok(Reply::Version(7))),
            (merge(0, 2), Ok(Reply::Version(8))),
            (count(0), Ok(Reply::Answer(15))),
        ],
    );
}

// In a full store too, a merge of what is seen already is accepted. Of two things wrong the earlier question says no: a branch before a
// base, a base before room, room before the kind.
#[test]
fn asks_in_order_in_a_full_store(rt: HostRuntime) {
    let mut memory = Small::new();
    let mut store = memory.store();
    dialogue(&rt, &mut store, &criss_cross());
    dialogue(
        &rt,
        &mut store,
        &[
            (add(5, 1_000_001), Err(StoreFault::NoBranch(5))),
            (add(3, 1_000_001), Err(StoreFault::VersionsFull(3))),
            (merge(5, 6), Err(StoreFault::NoBranch(5))),
            (merge(0, 6), Err(StoreFault::NoSource(6))),
            (merge(0, 3), Ok(Reply::Version(4))),
            (merge(2, 0), Err(StoreFault::NoBase(2))),
            (merge(1, 0), Err(StoreFault::VersionsFull(1))),
            (fork(7), Err(StoreFault::NotStored(7))),
            (fork(6), Ok(Reply::Branch(4))),
            (riddle(9), Err(StoreFault::NoBranch(9))),
        ],
    );
}

#[test]
fn passes_on_what_the_kind_refuses_and_alters_nothing(rt: HostRuntime) {
    let mut memory = Large::new();
    let mut store = memory.store();
    dialogue(&rt, &mut store, &apart());
    dialogue(
        &rt,
        &mut store,
        &[
            (
                add(1, 1_000_001),
                Err(StoreFault::OfKind(KindFault::UnknownChange(0))),
            ),
            (
                riddle(1),
                Err(StoreFault::OfKind(KindFault::UnknownQuestion(3))),
            ),
            (count(1), Ok(Reply::Answer(6))),
            (add(1, 1), Ok(Reply::Changed(4, 7))),
        ],
    );
}

#[test]
fn has_sixteen_branches_and_no_more(rt: HostRuntime) {
    let mut memory = Large::new();
    let mut store = memory.store();
    for branch in 1..16 {
        assert_eq!(rt; store.fork(0), Ok(branch));
    }
    dialogue(
        &rt,
        &mut store,
        &[
            (fork(0), Err(StoreFault::BranchesFull)),
            (fork(9), Err(StoreFault::NotStored(9))),
            (add(15, 3), Ok(Reply::Changed(1, 3))),
            (add(16, 3), Err(StoreFault::NoBranch(16))),
        ],
    );
}

#[test]
fn stores_as_many_versions_as_each_slice_has_room_for(rt: HostRuntime) {
    assert_eq!(rt; Memory::<5, 7, 18>::new().store().usable(), 4);
    assert_eq!(rt; Memory::<3, 9, 40>::new().store().usable(), 3);
    assert_eq!(rt; Memory::<9, 2, 40>::new().store().usable(), 2);
    assert_eq!(rt; Memory::<9, 9, 15>::new().store().usable(), 1);
    assert_eq!(rt; Memory::<9, 9, 14>::new().store().usable(), 0);
    assert_eq!(rt; Memory::<0, 9, 40>::new().store().usable(), 0);
    assert_eq!(rt; Memory::<4097, 4097, 4111>::new().store().usable(), 4096);
}

#[test]
fn refuses_every_call_without_room_for_a_version(rt: HostRuntime) {
    let mut memory = Memory::<9, 9, 14>::new();
    let mut store = memory.store();
    for call in [fork(9), add(5, 1_000_001), merge(5, 6), riddle(5)] {
        assert_eq!(rt; store.attempt(call), Err(StoreFault::NoVersion));
    }
}

#[test]
fn runs_from_the_opening_and_writes_no_more(rt: HostRuntime) {
    let mut memory = Large::new();
    let mut store = memory.store();
    dialogue(&rt, &mut store, &criss_cross());
    let calls = [add(0, 10), fork(1), merge(0, 6), count(1)];
    let mut outcomes = [UNTRIED; 5];
    assert_eq!(rt; store.run(&calls, &mut outcomes), 4);
    assert_eq!(rt;
        outcomes,
        [
            Ok(Reply::Changed(1, 10)),
            Ok(Reply::Branch(1)),
            Err(StoreFault::NoSource(6)),
            Ok(Reply::Answer(10)),
            UNTRIED,
        ]
    );
    assert_eq!(rt; store.run(&calls, &mut outcomes[0..1]), 1);
    store.reopen();
    dialogue(&rt, &mut store, &apart());
}

#[test]
fn numbers_each_refusal(rt: HostRuntime) {
    for (fault, number, holds) in [
        (StoreFault::NoVersion, 1, 0),
        (StoreFault::NotStored(9), 2, 9),
        (StoreFault::BranchesFull, 3, 0),
        (StoreFault::NoBranch(5), 4, 5),
        (StoreFault::NoSource(6), 5, 6),
        (StoreFault::VersionsFull(7), 6, 7),
        (StoreFault::NoBase(8), 7, 8),
        (StoreFault::OfKind(KindFault::UnknownChange(3)), 21, 3),
        (StoreFault::OfKind(KindFault::DoesNotFit(4)), 22, 4),
        (StoreFault::OfKind(KindFault::UnknownQuestion(2)), 23, 2),
    ] {
        assert_eq!(rt; fault.number(), number);
        assert_eq!(rt; fault.holds(), holds);
    }
}

#[test]
fn says_what_is_wrong_and_where(rt: HostRuntime) -> Result<(), Fail> {
    let heap = rt.alloc();
    let own = StoreFault::NoBranch(9).to_string(heap)?;
    assert_eq!(rt; own.as_str(), "4 at branch 9: there is no such branch");
    let fault = StoreFault::OfKind(KindFault::UnknownChange(4));
    let of_kind = fault.to_string(heap)?;
    assert_eq!(rt;
        of_kind.as_str(),
        "21 at place 4: the kind knows no such change"
    );
    Ok(())
}
