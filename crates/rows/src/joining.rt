// The three-way joining of rows: one walk over base, first and second side, which passes each row once.
ghost use Rattle.std.specs.Prelude.{◌≡◌, ◌≤◌, length};
ghost use Rattle.rows.specs.Rows.{outcome, rises};
ghost use Rattle.rows.specs.Walk.{Added, Joins, at_key, lower as lower_of, lowest as lowest_of, head_key, past};

use crate::Row;

// The key of the first row, if there is one.
#[tactic(auto, unfolding(crate::specs::Walk::head_key))]
fn head<R: Row>(rows: &[R]) -> Option<R::Key>
    ensures { result ≡ head_key R.key rows.now }
{
    rows.first().map(|row| row.key())
}

// The lower of two keys, where there are keys. Three in an array, for `flatten().min()`, was tried: it owes that the size of a key fits,
// which nothing says of a type parameter. `zip`, `map` and `or` would be no plainer than the match.
fn lower<K: Ord + Copy>(a: Option<K>, b: Option<K>) -> Option<K>
    ensures { result ≡ lower_of K.cmp a b }
{
    match (a, b) {
        (Some(m), Some(n)) => Some(m.min(n)),
        (a, b) => a.or(b),
    }
}

// The lowest key that one of three lists of rows begins with.
fn lowest<R: Row>(base: &[R], first: &[R], second: &[R]) -> Option<R::Key>
    ensures { result ≡ lowest_of R.Key.cmp R.key base.now first.now second.now }
{
    lower(head(base), lower(head(first), head(second)))
}

// Takes the first row, if it has the key.
#[tactic(auto, unfolding(crate::specs::Walk::at_key, crate::specs::Walk::past))]
fn taken<R: Row>(rows: &mut &[R], low: R::Key) -> Option<R>
    ensures row { result ≡ at_key R.Key.cmp R.key low rows.old.now }
    ensures rest { rows.new.now ≡ past R.Key.cmp R.key low rows.old.now }
{
    let (row, rest) = rows.split_first()?;
    if row.key() == low {
        *rows = rest;
        Some(*row)
    } else {
        None
    }
}

// What the join has where the base has one row, or none, and the two sides have theirs.
fn chosen<R: Row>(base: Option<R>, first: Option<R>, second: Option<R>) -> Option<R>
    ensures { result ≡ outcome R.eq base first second }
{
    if first == base {
        second
    } else if second == base {
        first
    } else {
        first.or(second)
    }
}

// Writes a row after the first `count`, if there is one to write: how many there are then, or nothing where there is no place.
fn added<R: Row>(out: &mut [R], count: usize, row: Option<R>) -> Option<usize>
    requires { count ≤ length out.old }
    ensures { Added out.old out.new count row result }
{
    let Some(row) = row else {
        return Some(count);
    };
    if count >= out.len() {
        return None;
    }
    // By index: over `get_mut`, tried, the proof doesn't close, since nothing says what a slice holds after it.
    out[count] = row;
    Some(count + 1)
}

// Joins two sides, three-way from their base, into `out`: how many rows there are, or nothing where there are more than `out` has places.
pub fn join<R: Row>(
    mut base: &[R],
    mut first: &[R],
    mut second: &[R],
    out: &mut [R],
) -> Option<usize>
    ensures { Joins R.Key.cmp R.key R.eq base.now first.now second.now out.old out.new result }
{
    // the result: with no heap there is no list to push onto, whose length it would be
    let mut count = 0;
    while let Some(low) = lowest(base, first, second) {
        let was = taken(&mut base, low);
        let ours = taken(&mut first, low);
        let theirs = taken(&mut second, low);
        count = added(out, count, chosen(was, ours, theirs))?;
    }
    Some(count)
}

// Whether the rows rise strictly by key.
pub fn rising<R: Row>(rows: &[R]) -> bool
    ensures { result ≡ rises R.Key.cmp R.key rows.now }
{
    rows.is_sorted_by(|a, b| a.key() < b.key())
}
