// Runs of the set on a few events and at its limit.
use crate::{Mark, SetForm};
use kinds::{Change, Kind, KindFault, Question, Stamp};
use std::test::Fail;

fn at(event: u16, branch: u8) -> Stamp {
    Stamp { event, branch }
}

fn mark(object: i32) -> Change {
    Change {
        place: 0,
        verb: 1,
        argument: object,
    }
}

fn clear(object: i32) -> Change {
    Change {
        place: 0,
        verb: 2,
        argument: object,
    }
}

fn member(object: i32) -> Question {
    Question {
        place: 0,
        verb: 1,
        argument: object,
    }
}

#[test]
fn marks_and_clears(rt: HostRuntime) -> Result<(), Fail> {
    let mut set = SetForm::empty();
    assert_eq!(rt; set.answer(member(7))?, 0);
    assert_eq!(rt; set.change(at(1, 0), mark(7))?, 0);
    assert_eq!(rt; set.change(at(2, 0), mark(65_535))?, 0);
    assert_eq!(rt; set.change(at(3, 1), mark(7))?, 1);
    assert_eq!(rt; set.count, 3);
    assert_eq!(rt; set.answer(member(7))?, 1);
    assert_eq!(rt; set.change(at(4, 0), clear(7))?, 1);
    assert_eq!(rt; set.answer(member(7))?, 0);
    assert_eq!(rt; set.answer(member(65_535))?, 1);
    assert_eq!(rt; set.change(at(5, 0), clear(7))?, 0);
    assert_eq!(rt; set.count, 1);
    Ok(())
}

// A clear takes away only the marks that it saw.
#[test]
fn keeps_a_mark_that_a_clear_did_not_see(rt: HostRuntime) -> Result<(), Fail> {
    let mut base = SetForm::empty();
    let _ = base.change(at(1, 0), mark(5))?;
    let mut first = base;
    let _ = first.change(at(2, 0), clear(5))?;
    let mut second = base;
    let _ = second.change(at(3, 1), mark(5))?;
    let merged = SetForm::merge(&base, &first, &second)?;
    assert_eq!(rt; merged.answer(member(5))?, 1);
    assert_eq!(rt; merged.count, 1);
    assert_eq!(rt; merged.rows[0].branch, 1);
    assert_eq!(rt; merged.rows[0].event, 3);
    let same = SetForm::merge(&base, &first, &base)?;
    assert_eq!(rt; same.answer(member(5))?, 0);
    Ok(())
}

#[test]
fn holds_96_rows_and_no_more(rt: HostRuntime) -> Result<(), Fail> {
    let mut set = SetForm::empty();
    for event in 1..97 {
        assert_eq!(rt; set.change(at(event, 0), mark(i32::from(event)))?, 0);
    }
    assert_eq!(rt; set.count, 96);
    assert_eq!(rt;
        set.change(at(97, 0), mark(97)),
        Err(KindFault::DoesNotFit(0))
    );
    assert_eq!(rt; KindFault::DoesNotFit(0).number(), 22);
    assert_eq!(rt; set.answer(member(97))?, 0);
    assert_eq!(rt; set.change(at(98, 0), mark(50))?, 1);
    assert_eq!(rt; set.count, 96);
    assert_eq!(rt; set.change(at(99, 0), clear(50))?, 1);
    assert_eq!(rt; set.change(at(100, 0), mark(97))?, 0);
    Ok(())
}

#[test]
fn names_the_place_of_what_it_does_not_know(rt: HostRuntime) {
    let mut set = SetForm::empty();
    for object in [-1, 65_536] {
        assert_eq!(rt;
            set.change(at(1, 0), mark(object)),
            Err(KindFault::UnknownChange(0))
        );
        assert_eq!(rt;
            set.answer(member(object)),
            Err(KindFault::UnknownQuestion(0))
        );
    }
    let elsewhere = Change {
        place: 3,
        verb: 1,
        argument: 1,
    };
    assert_eq!(rt;
        set.change(at(1, 0), elsewhere),
        Err(KindFault::UnknownChange(3))
    );
}

// A form of these rows, whatever they are.
fn form(rows: &[Mark], count: usize) -> SetForm {
    let mut form = SetForm::empty();
    for (place, row) in form.rows.iter_mut().zip(rows.iter()) {
        *place = *row;
    }
    form.count = count;
    form
}

// What no contract says, since such a form stands for no history: what the set knows is refused and alters nothing, and the form is asked
// as the empty one is. The forms have more rows than places, equal keys, and falling keys.
#[test]
fn refuses_a_form_that_fails_the_check(rt: HostRuntime) {
    let full = Err(KindFault::DoesNotFit(0));
    let seven = Mark {
        object: 7,
        branch: 0,
        event: 1,
    };
    let again = Mark { event: 2, ..seven };
    let lower = Mark { object: 6, ..seven };
    let empty = SetForm::empty();
    for form in [
        form(&[seven], 97),
        form(&[seven, again], 2),
        form(&[seven, lower], 2),
    ] {
        let mut set = form;
        assert_eq!(rt; set.change(at(3, 0), mark(7)), full);
        assert_eq!(rt; set.change(at(3, 0), clear(7)), full);
        assert_eq!(rt;
            set.change(at(3, 0), mark(-1)),
            Err(KindFault::UnknownChange(0))
        );
        assert!(rt; set.rows == form.rows && set.count == form.count);
        assert_eq!(rt; set.answer(member(7)), Ok(0));
        assert_eq!(rt; set.answer(member(-1)), Err(KindFault::UnknownQuestion(0)));
        for (base, first, second) in [
            (form, empty, empty),
            (empty, form, empty),
            (empty, empty, form),
        ] {
            let merged = SetForm::merge(&base, &first, &second);
            assert!(rt; matches!(merged, Err(KindFault::DoesNotFit(0))));
        }
    }
}
