// The set value that a call works on: its rows rise strictly by key, so that no two of them have the same object and branch.
ghost use Rattle.std.specs.Prelude.{◌≡◌, ◌≤◌, true, not, [], ◌∷◌, length, filter, ◌==◌, nat_eq};
ghost use Rattle.std.specs.List.{list_any};
ghost use Rattle.sets.specs.Table.{in_order, join_of};
ghost use Rattle.sets.specs.Form.{Checked, Fitted, Holds};

use crate::marks::{EMPTY_ROW, Mark, PLACES, SetForm};
use kinds::KindFault;
use rows::{join, rising};
use std::marker::Model;

// An array and a count, since there is no heap; contracts see the rows.
#[derive(Drop)]
pub struct SetValue {
    rows: [Mark; PLACES],
    count: usize,
}

impl Model for SetValue {
    ghost use Rattle.std.specs.Prelude.{◌≡◌, ◌≤◌, true, List, take};
    ghost use Rattle.sets.specs.declared.marks.Mark.{Mark as MarkRow};
    ghost use Rattle.sets.specs.Table.{in_order};

    ghost Value = { List MarkRow };

    ghost view = { λ s. take s.count s.rows };

    ghost invariant = { λ s. (s.count ≤ 96) × (in_order (take s.count s.rows) ≡ true) };
}

// The value of a form that passes the check: no more rows than places, strictly rising.
impl TryFrom<&SetForm> for SetValue {
    type Error = KindFault;

    ghost try_from_gives = { λ form r. Checked form.now r };

    fn try_from(form: &SetForm) -> Result<SetValue, KindFault> {
        let SetForm { rows, count } = *form;
        if count > PLACES || !rising(&rows[..count]) {
            return Err(KindFault::DoesNotFit(0));
        }
        Ok(SetValue { rows, count })
    }
}

impl From<SetValue> for SetForm {
    ghost from_gives = { λ rows form. Holds form rows };

    fn from(value: SetValue) -> SetForm {
        let SetValue { rows, count } = value;
        SetForm { rows, count }
    }
}

impl SetValue {
    // The rows that are there.
    pub fn live(&self) -> &[Mark]
        ensures rows { result.now ≡ self.now }
        ensures few { length result.now ≤ 96 }
        ensures rising { in_order result.now ≡ true }
    {
        &self.rows[..self.count]
    }

    pub fn has(&self, object: u16) -> bool
        ensures { result ≡ list_any (λ x. nat_eq x.object object) self.now }
    {
        self.live().iter().any(|row| row.object == object)
    }

    // The value of the rows that are joined, unless they are too many.
    fn over(base: &[Mark], first: &[Mark], second: &[Mark]) -> Result<SetValue, KindFault>
        requires base { in_order base.now ≡ true }
        requires first { in_order first.now ≡ true }
        requires second { in_order second.now ≡ true }
        ensures { Fitted (join_of base.now first.now second.now) result }
    {
        let mut rows = [EMPTY_ROW; PLACES];
        let count = join(base, first, second, &mut rows).ok_or(KindFault::DoesNotFit(0))?;
        Ok(SetValue { rows, count })
    }

    // The value with a row put in, in place of the one with its key.
    #[tactic(auto, unfolding(rows::specs::Rows::rises_over))]
    pub fn marked(&self, row: Mark) -> Result<SetValue, KindFault>
        ensures { Fitted (join_of [] (row ∷ []) self.now) result }
    {
        SetValue::over(&[], &[row], self.live())
    }

    // The value without the rows of an object, whatever their branch. With no heap there is no list to collect the others into: they are
    // written into an array, and counted.
    pub fn cleared(&self, object: u16) -> SetValue
        ensures { result ≡ filter (λ x. not (x.object == object)) self.now }
    {
        let mut rows = [EMPTY_ROW; PLACES];
        let mut count = 0;
        for row in self.live().iter().filter(|row| row.object != object) {
            rows[count] = *row;
            count += 1;
        }
        SetValue { rows, count }
    }

    // Two values joined over their base.
    pub fn joined(
        base: &SetValue,
        first: &SetValue,
        second: &SetValue,
    ) -> Result<SetValue, KindFault>
        ensures { Fitted (join_of base.now first.now second.now) result }
    {
        SetValue::over(base.live(), first.live(), second.live())
    }
}
