// The opened store.
ghost use Rattle.std.specs.Prelude.{◌<◌, length};
ghost use Rattle.store.specs.Held.{Greatest, Held, Opened, Room, lent, resized_memory};
ghost use Rattle.store.specs.Views.{memory};

use super::Store;
use crate::ledger::Ledger;
use calls::{Step, Version};
use kinds::Kind;

impl<'a, K: Kind> Store<'a, K> {
    // Takes slices of any length and content. What can be stored in them is asked of the store, by `usable`. This gives `Held` itself: the
    // ghost field of a store says only that there is a proof of it.
    pub fn open(
        versions: &'a mut [Version],
        values: &'a mut [K],
        steps: &'a mut [Step],
    ) -> Store<'a, K>
        ensures size { Greatest (length versions.old) (length values.old) (length steps.old) result.ledger.usable }
        ensures written { Opened (lent result.ledger.usable versions.old values.old steps.old) (memory result) }
        ensures held { Held K.meaning K.represents (memory result) }
    {
        let usable = 4096
            .min(versions.len())
            .min(values.len())
            .min(steps.len().saturating_sub(14));
        let ledger = Ledger::new(versions, steps);
        let mut store = Store { ledger, values };
        store.reset(usable);
        store
    }

    // Brings the store back to its opening, in the same memory.
    pub fn reopen(&mut self)
        ensures written { Opened (memory self.old) (memory self.new) }
        ensures held { Held K.meaning K.represents (memory self.new) }
    {
        let usable = self.usable();
        self.reset(usable);
    }

    // The opened state, with this usable size.
    fn reset(&mut self, usable: usize)
        requires { 0 < usable → Room (length self.old.ledger.versions.now) (length self.old.values.now) (length self.old.ledger.steps.now) usable }
        ensures written { Opened (resized_memory (memory self.old) usable) (memory self.new) }
        ensures held { Held K.meaning K.represents (memory self.new) }
    {
        if usable == 0 {
            self.ledger.reset(0);
            return;
        }
        self.values[0] = K::empty();
        self.ledger.reset(usable);
    }
}
