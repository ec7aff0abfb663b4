// Sizes in the words of a command line.
ghost use Rattle.std.specs.Prelude.{◌≤◌, IfSome};

/// The most bytes of a file where nothing is said of it.
pub(crate) const MAX_SIZE: u64 = 1_048_576;

/// The most bytes of a file that is held in memory.
pub(crate) const MAX_HELD: u64 = 67_108_864;

const MOST: u64 = 9_223_372_036_854_775_807;

/// The bytes of a size: a number, with K, M or G for 1024 bytes, 1024 K or 1024 M.
pub(crate) fn size_of(text: &str) -> Option<u64>
    ensures bounds { IfSome result (λ size. (1 ≤ size) × (size ≤ 9223372036854775807)) }
{
    if let Some(digits) = text.strip_suffix('K') {
        sized(digits, 1_024)
    } else if let Some(digits) = text.strip_suffix('M') {
        sized(digits, 1_048_576)
    } else if let Some(digits) = text.strip_suffix('G') {
        sized(digits, 1_073_741_824)
    } else {
        sized(text, 1)
    }
}

// So many units.
fn sized(digits: &str, unit: u64) -> Option<u64>
    ensures bounds { IfSome result (λ size. (1 ≤ size) × (size ≤ 9223372036854775807)) }
{
    let count = digits.parse::<u64>().ok()?;
    let size = count.checked_mul(unit)?;
    if size == 0 || size > MOST {
        return None;
    }
    Some(size)
}
