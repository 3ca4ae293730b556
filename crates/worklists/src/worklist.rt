// The worklist as a kind: a pair of (set, queue) and (counter, counter).
ghost use Rattle.std.specs.Prelude.{◌≡◌};

use kinds::{Counter, Kind, Pair};
use queues::Queue;
use sets::SetForm;

pub type Worklist = Pair<Pair<SetForm, Queue>, Pair<Counter, Counter>>;

// The kind number of the worklist.
pub fn number() -> u16
    ensures { result ≡ 736 }
{
    Worklist::kind_number()
}
