// Runs of the kinds on small numbers and at their limits.
use crate::{Change, Counter, Kind, KindFault, Pair, Question, Stamp};
use std::test::Fail;

type Two = Pair<Counter, Counter>;

type Four = Pair<Two, Two>;

fn at(event: u16, branch: u8) -> Stamp {
    Stamp { event, branch }
}

fn add(place: u32, argument: i32) -> Change {
    Change {
        place,
        verb: 1,
        argument,
    }
}

fn total(place: u32) -> Question {
    Question {
        place,
        verb: 1,
        argument: 0,
    }
}

#[test]
fn merges_three_ways(rt: HostRuntime) -> Result<(), Fail> {
    let mut base = Counter::empty();
    assert_eq!(rt; base.change(at(1, 0), add(0, 10))?, 10);
    let mut first = base;
    assert_eq!(rt; first.change(at(2, 0), add(0, 3))?, 13);
    let mut second = base;
    assert_eq!(rt; second.change(at(3, 1), add(0, -4))?, 6);
    let merged = Counter::merge(&base, &first, &second)?;
    assert_eq!(rt; merged.answer(total(0))?, 9);
    Ok(())
}

#[test]
fn knows_a_million_and_no_more(rt: HostRuntime) -> Result<(), Fail> {
    let mut count = Counter::empty();
    assert_eq!(rt; count.change(at(1, 0), add(0, 1_000_000))?, 1_000_000);
    assert_eq!(rt;
        count.change(at(2, 0), add(0, 1_000_001)),
        Err(KindFault::UnknownChange(0))
    );
    assert_eq!(rt;
        count.change(at(2, 0), add(0, -1_000_001)),
        Err(KindFault::UnknownChange(0))
    );
    assert_eq!(rt;
        count.change(at(2, 0), add(3, 1)),
        Err(KindFault::UnknownChange(3))
    );
    assert_eq!(rt;
        count.change(
            at(2, 0),
            Change {
                place: 0,
                verb: 2,
                argument: 1,
            },
        ),
        Err(KindFault::UnknownChange(0))
    );
    assert_eq!(rt;
        count.answer(Question {
            place: 0,
            verb: 1,
            argument: 1,
        }),
        Err(KindFault::UnknownQuestion(0))
    );
    assert_eq!(rt; count.answer(total(0))?, 1_000_000);
    Ok(())
}

#[test]
fn reaches_the_least_and_the_greatest_sum(rt: HostRuntime) -> Result<(), Fail> {
    let mut most = Counter::empty();
    let mut least = Counter::empty();
    for event in 1..4096 {
        let _ = most.change(at(event, 0), add(0, 1_000_000))?;
        let _ = least.change(at(event, 15), add(0, -1_000_000))?;
    }
    assert_eq!(rt; most.answer(total(0))?, Counter::greatest_sum());
    assert_eq!(rt; least.answer(total(0))?, -4_095_000_000);
    Ok(())
}

// The places of a pair of pairs are 0 left-left, 1 right-left, 2 left-right and 3 right-right, and from there on unknown.
#[test]
fn sends_each_place_to_its_part(rt: HostRuntime) -> Result<(), Fail> {
    let mut four = Four::empty();
    for place in 0..4 {
        assert_eq!(rt; four.change(at(1, 0), add(place, 7))?, 7);
        assert_eq!(rt; four.change(at(2, 0), add(place, 1))?, 8);
    }
    for place in 0..4 {
        assert_eq!(rt; four.answer(total(place))?, 8);
    }
    Ok(())
}

#[test]
fn names_a_place_as_it_was_asked(rt: HostRuntime) {
    let mut four = Four::empty();
    for place in [
        4,
        5,
        6,
        7,
        8,
        4_294_967_292,
        4_294_967_293,
        4_294_967_294,
        4_294_967_295,
    ] {
        assert_eq!(rt;
            four.change(at(1, 0), add(place, 1)),
            Err(KindFault::UnknownChange(place))
        );
        assert_eq!(rt;
            four.answer(total(place)),
            Err(KindFault::UnknownQuestion(place))
        );
    }
    assert_eq!(rt;
        four.change(at(1, 0), add(2, 1_000_001)),
        Err(KindFault::UnknownChange(2))
    );
}

#[test]
fn merges_each_part_of_a_pair(rt: HostRuntime) -> Result<(), Fail> {
    let mut base = Two::empty();
    let _ = base.change(at(1, 0), add(0, 10))?;
    let _ = base.change(at(2, 0), add(1, 100))?;
    let mut first = base;
    let _ = first.change(at(3, 0), add(0, 3))?;
    let mut second = base;
    let _ = second.change(at(4, 1), add(0, -4))?;
    let _ = second.change(at(5, 1), add(1, 50))?;
    let merged = Two::merge(&base, &first, &second)?;
    assert_eq!(rt; merged.answer(total(0))?, 9);
    assert_eq!(rt; merged.answer(total(1))?, 150);
    Ok(())
}

// The constant, the function and the arithmetic by hand agree, at several depths of pairs.
#[test]
fn has_the_constant_that_the_number_is_proved_for(rt: HostRuntime) {
    assert_eq!(rt; Counter::NUMBER, Counter::kind_number());
    assert_eq!(rt; Two::NUMBER, Two::kind_number());
    assert_eq!(rt; Two::NUMBER, 25);
    assert_eq!(rt;
        Pair::<Counter, Two>::NUMBER,
        Pair::<Counter, Two>::kind_number()
    );
    assert_eq!(rt;
        Pair::<Two, Counter>::NUMBER,
        Pair::<Two, Counter>::kind_number()
    );
    assert_eq!(rt;
        Pair::<Four, Pair<Four, Four>>::NUMBER,
        Pair::<Four, Pair<Four, Four>>::kind_number()
    );
}

#[test]
fn says_what_is_wrong_and_where(rt: HostRuntime) -> Result<(), Fail> {
    let fault = KindFault::DoesNotFit(9);
    assert_eq!(rt; fault.number(), 22);
    assert_eq!(rt; fault.place(), 9);
    let text = fault.to_string(rt.alloc())?;
    assert_eq!(rt; text.as_str(), "22 at place 9: the history does not fit");
    Ok(())
}
