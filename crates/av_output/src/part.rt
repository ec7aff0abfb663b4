ghost use Rattle.std.specs.Prelude.{◌≡◌, ◌<◌, ◌≤◌, ◌+◌, length};
ghost use Rattle.std.specs.List.{between};

/// What stands in a list from one place up to another, as far as it is there.
pub fn part<T>(items: &[T], from: u64, to: u64) -> &[T]
    ensures items { result.now ≡ between from to items.now }
    ensures within { 0 < length result.now → from + length result.now ≤ length items.now }
{
    let end = to.min(items.len() as u64);
    if from >= end {
        return &items[..0];
    }
    &items[from as usize..end as usize]
}
