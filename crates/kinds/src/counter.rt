// The counter: the sum of what was added.
ghost use Rattle.std.specs.Prelude.{◌≡◌, pos};
ghost use Rattle.kinds.specs.Counter.{SumsWithin, counter, sum};
ghost use Rattle.std.proofs.Common.{rules};

use crate::{Change, Kind, KindFault, Question, Stamp};

// The verb that the counter knows, and its question.
const ADD: u8 = 1;

const TOTAL: u8 = 1;

// The most that one change adds or takes back.
const LIMIT: i32 = 1_000_000;

#[derive(Clone, Copy)]
pub struct Counter {
    total: i64,
}

impl Counter {
    // The greatest sum of a history: 4,095 events of a million each. The least is its negative, so no sum comes near the ends of 64 bits.
    #[tactic(auto, using(crate::proofs::Sums::sums_within))]
    pub fn greatest_sum() -> i64
        ensures value { result ≡ pos 4095000000 }
        ensures bound { SumsWithin result }
    {
        4_095_000_000
    }
}

fn adds(change: Change) -> bool
    ensures { result ≡ counter.knows change }
{
    change.place == 0 && change.verb == ADD && (-LIMIT..=LIMIT).contains(&change.argument)
}

fn asks_total(question: Question) -> bool
    ensures { result ≡ counter.hears question }
{
    question.place == 0 && question.verb == TOTAL && question.argument == 0
}

impl Kind for Counter {
    const NUMBER: u16 = 1;

    ghost NUMBER = { 1 };

    ghost meaning = { counter };

    ghost represents = { λ v h. v.total ≡ sum h };

    ghost fitting = { Prim.search rules };

    fn empty() -> Counter {
        Counter { total: 0 }
    }

    // The sum of a history is far below 64 bits; that of a value which stands for none may wrap.
    fn change(&mut self, _stamp: Stamp, change: Change) -> Result<i64, KindFault> {
        if !adds(change) {
            return Err(KindFault::UnknownChange(change.place));
        }
        let total = self.total.wrapping_add(i64::from(change.argument));
        self.total = total;
        Ok(total)
    }

    // What the first side has, and what the second gained over the base.
    fn merge(base: &Counter, first: &Counter, second: &Counter) -> Result<Counter, KindFault> {
        let total = first
            .total
            .wrapping_add(second.total)
            .wrapping_sub(base.total);
        Ok(Counter { total })
    }

    fn answer(&self, question: Question) -> Result<i64, KindFault> {
        if !asks_total(question) {
            return Err(KindFault::UnknownQuestion(question.place));
        }
        Ok(self.total)
    }
}
