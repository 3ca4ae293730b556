// The set as a kind: each call checks the plain form, makes the set value, works on that, and writes the plain form back whole.
ghost use Rattle.std.specs.Prelude.{◌≡◌, true, false, pos, Ok, MatchOption};
ghost use Rattle.sets.specs.Set.{bit as bit_of, object_set};
ghost use Rattle.sets.specs.Form.{Represents};
ghost use Rattle.sets.specs.Verbs.{number_of};
ghost use Rattle.sets.specs.Fitting;

use crate::marks::{EMPTY_ROW, Mark, PLACES, SetForm};
use crate::set::SetValue;
use kinds::{Change, Kind, KindFault, Question, Stamp};

// What a change does with an object.
#[derive(Clone, Copy)]
enum Verb {
    Mark,
    Clear,
}

const MEMBER: u8 = 1;

// The verb of a change and the object that it speaks of, where the kind knows the change.
fn changed(change: Change) -> Option<(Verb, u16)>
    ensures { MatchOption result (object_set.knows change ≡ false) (λ p. (object_set.knows change ≡ true) × (change.verb ≡ number_of p.0) × (change.argument ≡ pos p.1)) }
{
    let verb = match change.verb {
        1 => Verb::Mark,
        2 => Verb::Clear,
        _ => return None,
    };
    let object = u16::try_from(change.argument).ok()?;
    (change.place == 0).then_some((verb, object))
}

// The object that a question asks for, where the kind knows the question.
fn asked(question: Question) -> Option<u16>
    ensures { MatchOption result (object_set.hears question ≡ false) (λ o. (object_set.hears question ≡ true) × (question.argument ≡ pos o)) }
{
    if question.place == 0 && question.verb == MEMBER {
        u16::try_from(question.argument).ok()
    } else {
        None
    }
}

// Yes or no, as a reply or an answer.
fn told(yes: bool) -> Result<i64, KindFault>
    ensures { result ≡ Ok (bit_of yes) }
{
    Ok(i64::from(yes))
}

impl Kind for SetForm {
    const NUMBER: u16 = 2;

    ghost NUMBER = { 2 };

    ghost meaning = { object_set };

    ghost represents = { Represents };

    ghost fitting = { Fitting.fitting };

    #[tactic(auto, unfolding(rows::specs::Rows::rises_over, rows::specs::Sorted::sorted, crate::specs::Table::table))]
    fn empty() -> SetForm {
        SetForm {
            rows: [EMPTY_ROW; PLACES],
            count: 0,
        }
    }

    // A form that fails the check stands for no history: a known change of it is refused as one that doesn't fit.
    fn change(&mut self, stamp: Stamp, change: Change) -> Result<i64, KindFault> {
        let (verb, object) = changed(change).ok_or(KindFault::UnknownChange(change.place))?;
        let value = SetValue::try_from(&*self)?;
        let was = value.has(object);
        let later = match verb {
            Verb::Mark => value.marked(Mark {
                object,
                branch: stamp.branch,
                event: stamp.event,
            })?,
            Verb::Clear => value.cleared(object),
        };
        *self = later.into();
        told(was)
    }

    fn merge(base: &SetForm, first: &SetForm, second: &SetForm) -> Result<SetForm, KindFault> {
        let old = SetValue::try_from(base)?;
        let ours = SetValue::try_from(first)?;
        let theirs = SetValue::try_from(second)?;
        SetValue::joined(&old, &ours, &theirs).map(SetForm::from)
    }

    // A form that fails the check is answered as the empty set is.
    fn answer(&self, question: Question) -> Result<i64, KindFault> {
        let object = asked(question).ok_or(KindFault::UnknownQuestion(question.place))?;
        let member = SetValue::try_from(self).is_ok_and(|value| value.has(object));
        told(member)
    }
}
