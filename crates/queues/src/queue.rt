// The queue: a put waits after all that wait, and a take takes the first.
ghost use Rattle.std.specs.Prelude.{◌≡◌, ◌≤◌, ◌<◌, Err, MatchResult, Ok, take};
ghost use Rattle.kinds.specs.declared.fault.KindFault.TheVariants.{DoesNotFit};
ghost use Rattle.queues.specs.Line.{Put, Represents, Take, first_item};
ghost use Rattle.queues.specs.Queue.{queue as queue_meaning};
ghost use Rattle.queues.specs.Fits;

use crate::wait::{EMPTY_WAIT, Wait};
use kinds::{Change, Kind, KindFault, Question, Stamp};
use rows::join;

// The most that wait at once.
const CAPACITY: usize = 64;

// Why more are refused.
const FULL: KindFault = KindFault::DoesNotFit(0);

// What a change does.
const PUT: u8 = 1;

const TAKE: u8 = 2;

// What a question asks for: the first item, or how many wait.
const FIRST: u8 = 1;

const WAITING: u8 = 2;

// An array and a count: a value is plain data in lent memory, without a heap. A type whose count is never above 64 would be checked
// and copied whole in each call, to say what `live` says once.
#[derive(Clone, Copy)]
pub struct Queue {
    rows: [Wait; CAPACITY],
    count: usize,
}

// The item of the first row, or -1.
fn item_of_first(rows: &[Wait]) -> i64
    ensures { result ≡ first_item rows.now }
{
    rows.first().map_or(-1, |row| i64::from(row.item))
}

impl Queue {
    // The rows of those that wait. A value with more than fit stands for no history.
    fn live(&self) -> Result<&[Wait], KindFault>
        ensures { MatchResult result (λ rows. (self.now.count ≤ 64) × (rows.now ≡ take self.now.count self.now.rows)) (λ fault. (64 < self.now.count) × (fault ≡ DoesNotFit 0)) }
    {
        self.rows.get(..self.count).ok_or(FULL)
    }

    // Writes a row after those that wait, and replies how many wait with it.
    fn put(&mut self, wait: Wait) -> Result<i64, KindFault>
        ensures { Put self.old wait result self.new }
    {
        if self.count >= CAPACITY {
            return Err(FULL);
        }
        self.rows[self.count] = wait;
        self.count += 1;
        // `as` loses nothing here, and `i64::try_from` would need a fault that can't be.
        Ok(self.count as i64)
    }

    // Removes the first row, and replies its item, or -1 where none waits.
    fn take(&mut self) -> Result<i64, KindFault>
        ensures { Take self.old result self.new }
    {
        let item = item_of_first(self.live()?);
        if self.count > 0 {
            self.rows.copy_within(1..self.count, 0);
            self.count -= 1;
        }
        Ok(item)
    }
}

impl Kind for Queue {
    const NUMBER: u16 = 3;

    ghost NUMBER = { 3 };

    ghost meaning = { queue_meaning };

    ghost represents = { Represents };

    ghost fitting = { Fits.fitting };

    #[tactic(auto, unfolding(crate::specs::Queue::takings_from, crate::specs::Queue::waiting, crate::specs::Line::line))]
    fn empty() -> Queue {
        Queue {
            rows: [EMPTY_WAIT; CAPACITY],
            count: 0,
        }
    }

    fn change(&mut self, stamp: Stamp, change: Change) -> Result<i64, KindFault> {
        match (change.place, change.verb, u16::try_from(change.argument)) {
            (0, PUT, Ok(item)) => self.put(Wait {
                event: stamp.event,
                item,
            }),
            (0, TAKE, Ok(0)) => self.take(),
            _ => Err(KindFault::UnknownChange(change.place)),
        }
    }

    fn merge(base: &Queue, first: &Queue, second: &Queue) -> Result<Queue, KindFault> {
        let mut rows = [EMPTY_WAIT; CAPACITY];
        let count = join(base.live()?, first.live()?, second.live()?, &mut rows).ok_or(FULL)?;
        Ok(Queue { rows, count })
    }

    fn answer(&self, question: Question) -> Result<i64, KindFault> {
        let rows = self.live().unwrap_or(&[]);
        match (question.place, question.verb, question.argument) {
            (0, FIRST, 0) => Ok(item_of_first(rows)),
            (0, WAITING, 0) => Ok(rows.len() as i64),
            _ => Err(KindFault::UnknownQuestion(question.place)),
        }
    }
}

#[cfg(test)]
mod tests;
