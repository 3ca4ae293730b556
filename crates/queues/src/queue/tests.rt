// Runs of the queue: its order, its limit, takes on two branches, and a value that stands for no history.
use super::{CAPACITY, EMPTY_WAIT, Queue, Wait};
use kinds::{Change, Kind, KindFault, Question, Stamp};
use std::test::Fail;

fn at(event: u16) -> Stamp {
    Stamp { event, branch: 0 }
}

fn put(argument: i32) -> Change {
    Change {
        place: 0,
        verb: 1,
        argument,
    }
}

fn take() -> Change {
    Change {
        place: 0,
        verb: 2,
        argument: 0,
    }
}

fn asked(verb: u8) -> Question {
    Question {
        place: 0,
        verb,
        argument: 0,
    }
}

#[test]
fn takes_in_the_order_of_the_puts(rt: HostRuntime) -> Result<(), Fail> {
    let mut queue = Queue::empty();
    assert_eq!(rt; queue.change(at(1), put(5))?, 1);
    assert_eq!(rt; queue.change(at(2), put(65_535))?, 2);
    assert_eq!(rt; queue.change(at(3), put(0))?, 3);
    assert_eq!(rt; queue.answer(asked(1))?, 5);
    assert_eq!(rt; queue.answer(asked(2))?, 3);
    for item in [5, 65_535, 0, -1] {
        assert_eq!(rt; queue.change(at(4), take())?, item);
    }
    assert_eq!(rt; queue.answer(asked(1))?, -1);
    assert_eq!(rt; queue.answer(asked(2))?, 0);
    Ok(())
}

#[test]
fn holds_sixty_four(rt: HostRuntime) -> Result<(), Fail> {
    let mut queue = Queue::empty();
    for event in 1..65 {
        assert_eq!(rt; queue.change(at(event), put(7))?, i64::from(event));
    }
    assert_eq!(rt; queue.change(at(65), put(7)), Err(KindFault::DoesNotFit(0)));
    assert_eq!(rt; queue.answer(asked(2))?, 64);
    Ok(())
}

#[test]
fn knows_no_other_change(rt: HostRuntime) -> Result<(), Fail> {
    let mut queue = Queue::empty();
    for argument in [-1, 65_536] {
        assert_eq!(rt;
            queue.change(at(1), put(argument)),
            Err(KindFault::UnknownChange(0))
        );
    }
    let elsewhere = Change { place: 4, ..take() };
    assert_eq!(rt;
        queue.change(at(1), elsewhere),
        Err(KindFault::UnknownChange(4))
    );
    assert_eq!(rt; queue.answer(asked(3)), Err(KindFault::UnknownQuestion(0)));
    Ok(())
}

#[test]
fn takes_the_same_on_two_branches(rt: HostRuntime) -> Result<(), Fail> {
    let mut base = Queue::empty();
    assert_eq!(rt; base.change(at(1), put(8))?, 1);
    let mut first = base;
    assert_eq!(rt; first.change(at(2), take())?, 8);
    let mut second = base;
    assert_eq!(rt; second.change(at(3), take())?, 8);
    let merged = Queue::merge(&base, &first, &second)?;
    assert_eq!(rt; merged.answer(asked(1))?, -1);
    assert_eq!(rt; merged.answer(asked(2))?, 0);
    Ok(())
}

// What no contract says, since such a value stands for no history: what the kind knows is refused and alters nothing, and the value
// is asked as the empty queue is.
#[test]
fn refuses_a_value_with_more_than_fit(rt: HostRuntime) -> Result<(), Fail> {
    let full = Err(KindFault::DoesNotFit(0));
    let empty = Queue::empty();
    let mut over = Queue {
        rows: [EMPTY_WAIT; CAPACITY],
        count: 65,
    };
    assert_eq!(rt; over.change(at(1), put(7)), full);
    assert_eq!(rt; over.change(at(1), take()), full);
    assert_eq!(rt;
        over.change(at(1), put(-1)),
        Err(KindFault::UnknownChange(0))
    );
    assert_eq!(rt; over.count, 65);
    assert_eq!(rt; over.answer(asked(1))?, -1);
    assert_eq!(rt; over.answer(asked(2))?, 0);
    for (base, first, second) in [
        (over, empty, empty),
        (empty, over, empty),
        (empty, empty, over),
    ] {
        let merged = Queue::merge(&base, &first, &second);
        assert!(rt; matches!(merged, Err(KindFault::DoesNotFit(0))));
    }
    Ok(())
}

// Nor does a contract say what becomes of rows that don't rise, by equal event numbers or falling ones: they are used as they lie.
#[test]
fn uses_rows_that_do_not_rise_as_they_lie(rt: HostRuntime) -> Result<(), Fail> {
    for event in [4, 3] {
        let mut queue = Queue::empty();
        queue.rows[0] = Wait { event: 4, item: 5 };
        queue.rows[1] = Wait { event, item: 6 };
        queue.count = 2;
        assert_eq!(rt; queue.answer(asked(1))?, 5);
        let merged = Queue::merge(&queue, &queue, &queue)?;
        assert_eq!(rt; merged.answer(asked(2))?, 2);
        for item in [5, 6, -1] {
            assert_eq!(rt; queue.change(at(5), take())?, item);
        }
    }
    Ok(())
}
