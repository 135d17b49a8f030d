// The one search for an equal entry, for every kind of entry.
ghost use Rattle.table.specs.Search.{FirstEqual};
ghost use Rattle.std.specs.Prelude.{◌≡◌};

// Where an entry equal to `x` first stands in `entries`, if one does.
pub fn position<T: PartialEq>(entries: &[T], x: &T) -> Option<usize>
    ensures first { FirstEqual (λ y b. b ≡ T.PartialEq.eq y x.now) entries.now result }
{
    entries.iter().position(|y| *y == *x)
}
