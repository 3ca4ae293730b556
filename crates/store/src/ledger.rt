// What a store keeps besides its values: version records, steps and heads, in slices that the caller lends and, since there is no heap, with
// numbers of how much of each is in use. No kind occurs here.
ghost use Rattle.std.specs.Prelude.{◌≡◌, ◌+◌, ◌<◌, ◌≤◌, true, length, take};
ghost use Rattle.store.specs.Book.{actions, told};
ghost use Rattle.calls.specs.Run.{all_possible};
ghost use Rattle.calls.specs.Counts.{records_of};
ghost use Rattle.calls.specs.World.{opened};

use calls::{Step, Version};

mod open;
mod questions;
mod write;

#[derive(Drop)]
pub(crate) struct Ledger<'a> {
    pub(crate) versions: &'a mut [Version],
    pub(crate) steps: &'a mut [Step],
    pub(crate) usable: usize,
    // how many versions are stored, how many steps were taken, how many branches and how many events there are
    pub(crate) made: usize,
    pub(crate) taken: usize,
    pub(crate) branches: usize,
    pub(crate) events: usize,
    pub(crate) heads: [u16; 16],
    // there is room for what is stored,
    ghost small: { usable ≤ 4096 },
    ghost sixteen: { length heads ≡ 16 },
    ghost versioned: { usable ≤ length versions.now },
    ghost stepped: { 0 < usable → usable + 14 ≤ length steps.now },
    ghost within: { made ≤ usable },
    ghost few: { branches ≤ 16 },
    ghost fewer: { events ≤ made },
    ghost counted: { 0 < made → taken + 2 ≤ made + branches },
    // and version records, heads and events are those that the steps tell of
    ghost possible: { all_possible usable (opened usable) (actions steps.now taken) ≡ true },
    ghost recorded: { take made versions.now ≡ records_of (told usable steps.now taken) },
    ghost standing: { take branches heads ≡ (told usable steps.now taken).heads },
    ghost numbered: { events ≡ length (told usable steps.now taken).events },
}
