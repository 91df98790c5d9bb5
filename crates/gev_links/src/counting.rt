ghost use Rattle.std.specs.Prelude.{◌≡◌, ◌<◌, ◌+◌, ◌-◌, ◌^◌, Some, None};

/// One more; None where that can't be counted.
pub(crate) fn one_more(count: u64) -> Option<u64>
    ensures more { count < 2 ^ 64 - 1 → result ≡ Some (count + 1) }
    ensures most { count ≡ 2 ^ 64 - 1 → result ≡ None }
{
    if count < u64::MAX {
        Some(count + 1)
    } else {
        None
    }
}
