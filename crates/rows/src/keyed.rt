// What a row is: it has a key, and is compared with another row as a whole.
ghost use Rattle.std.specs.Prelude.{◌≡◌, true};
ghost use Rattle.std.specs.declared.cmp.Ordering.TheVariants.{Equal};

// The key may be of any make that has an order: nothing asks that it be a number.
pub trait Row: Eq + Copy {
    type Key: Ord + Copy;

    ghost key: { Self → Self.Key };

    fn key(&self) -> Self::Key
        ensures { result ≡ key self.now };

    // Rows that are equal are one row.
    ghost whole: { (x y : Self) → Self.eq x y ≡ true → x ≡ y };

    // Keys that compare as equal are one key.
    ghost level: { (a b : Self.Key) → Self.Key.cmp a b ≡ Equal → a ≡ b };
}
