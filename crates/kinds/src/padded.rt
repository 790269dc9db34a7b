//! Items in place, with blanks behind them.
ghost use Rattle.std.specs.Prelude.{◌≡◌, ℕ, ◌<◌, ◌≤◌, ◌++◌, length, drop, replicate, MatchOption};

/// The items in an array of `N`, with blanks behind them; none where there are more.
pub fn padded<T: Copy, const N: usize>(items: &[T], blank: T) -> Option<[T; N]>
    ensures { MatchOption result (N < length items.now) (λ held. (length items.now ≤ N) × (held ≡ items.now ++ drop (length items.now) (replicate N blank))) }
{
    if items.len() > N {
        return None;
    }
    let mut held = [blank; N];
    held[..items.len()].copy_from_slice(items);
    Some(held)
}
