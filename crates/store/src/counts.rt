// What versions have seen, compared branch by branch.
ghost use Rattle.std.specs.Prelude.{◌≡◌, ℕ, ◌<◌, ◌≤◌, ◌↔◌, IsTrue, length, slice_index};

use calls::Version;

// Of each branch what `f` makes of the two counts.
pub(crate) fn branchwise<F: Fn(u16, u16) -> u16>(a: &Version, b: &Version, f: F) -> Version
    requires { F.IsAlwaysCallable f }
    ensures size { length result.counts ≡ 16 }
    ensures counts { (k : ℕ) → k < 16 → F.post f (slice_index a.now.counts k) (slice_index b.now.counts k) (slice_index result.counts k) }
{
    let mut counts = a.counts;
    // `b` by index: under a `zip` with `iter_mut`, tried, no invariant can name what was written, nor can a proof name what the closure of
    // `array::from_fn` captures.
    for (i, count) in counts.iter_mut().enumerate() {
        *count = f(*count, b.counts[i]);
    }
    Version { counts }
}

// No count of `a` is above that of `b`.
pub(crate) fn within(a: &Version, b: &Version) -> bool
    ensures { IsTrue result ↔ ((k : ℕ) → slice_index a.now.counts k ≤ slice_index b.now.counts k) }
{
    a.counts.iter().zip(b.counts.iter()).all(|(x, y)| x <= y)
}
