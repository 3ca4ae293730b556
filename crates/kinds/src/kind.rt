// What a kind of value is: its meaning over histories of events, and the calls that every kind has.
ghost use Rattle.std.specs.Prelude.{◌≡◌, ℕ, true, List, []};
ghost use Rattle.kinds.specs.Events.{Event};
ghost use Rattle.kinds.specs.Meaning.{Meaning};
ghost use Rattle.kinds.specs.Duties.{Answers, Changes, Merges};

use crate::{Change, KindFault, Question, Stamp};

// A value lies in memory that a caller lends, so it is plain data that can be copied.
pub trait Kind: Copy {
    // The kind's number, fixed with the kind.
    const NUMBER: u16;

    ghost NUMBER: { ℕ };

    // What the kind means, by histories of events alone.
    ghost meaning: { Meaning };

    // Which values stand for a history. A value need not stand for any.
    ghost represents: { Self → List Event → Type 0 };

    final fn kind_number() -> u16
        ensures { result ≡ NUMBER }
    {
        Self::NUMBER
    }

    // The value for the empty history.
    fn empty() -> Self
        ensures { represents result [] };

    // Makes a change, and answers its reply.
    fn change(&mut self, stamp: Stamp, change: Change) -> Result<i64, KindFault>
        ensures { Changes meaning represents self.old stamp change result self.new };

    // Merges two sides three-way, from a base that has seen just what both have seen.
    fn merge(base: &Self, first: &Self, second: &Self) -> Result<Self, KindFault>
        ensures { Merges meaning represents base.now first.now second.now result };

    fn answer(&self, question: Question) -> Result<i64, KindFault>
        ensures { Answers meaning represents self.now question result };

    // Only a history that fits has values that stand for it.
    ghost fitting: { (v : Self) (h : List Event) → represents v h → meaning.fits h ≡ true };
}
