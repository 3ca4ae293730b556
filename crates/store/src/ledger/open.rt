// The opened ledger.
ghost use Rattle.std.specs.Prelude.{◌≡◌, ◌+◌, ◌<◌, ◌≤◌, length, replicate};
ghost use Rattle.store.specs.Book.{blank, resized};
ghost use Rattle.store.specs.Ledgers.{book};

use super::Ledger;
use calls::{Step, Version};

impl<'a> Ledger<'a> {
    // A ledger with room for nothing.
    pub(crate) fn new(versions: &'a mut [Version], steps: &'a mut [Step]) -> Ledger<'a>
        ensures { book result ≡ record { usable = 0; versions = versions.old; made = 0; steps = steps.old; taken = 0; heads = replicate 16 0; branches = 0; events = 0 } }
    {
        Ledger {
            versions,
            steps,
            usable: 0,
            made: 0,
            taken: 0,
            branches: 0,
            events: 0,
            heads: [0; 16],
        }
    }

    // The opened state, with this usable size.
    pub(crate) fn reset(&mut self, usable: usize)
        requires small { usable ≤ 4096 }
        requires versioned { usable ≤ length self.old.versions.now }
        requires stepped { 0 < usable → usable + 14 ≤ length self.old.steps.now }
        ensures { book self.new ≡ blank (resized (book self.old) usable) }
    {
        self.usable = 0;
        self.made = 0;
        self.taken = 0;
        self.branches = 0;
        self.events = 0;
        if usable > 0 {
            self.versions[0] = Version::BLANK;
            self.heads[0] = 0;
            self.usable = usable;
            self.made = 1;
            self.branches = 1;
        }
    }
}
