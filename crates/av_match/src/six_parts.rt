//! The six parts of a piece of a content that are read side by side.
ghost use Rattle.std.specs.Prelude.{◌≡◌, ◌+◌, ◌*◌, ◌≤◌, length, take, drop};

/// Six parts, which all have the length of the first.
#[derive(Clone, Copy)]
pub(crate) struct SixParts<'a> {
    pub a: &'a [u8],
    pub b: &'a [u8],
    pub c: &'a [u8],
    pub d: &'a [u8],
    pub e: &'a [u8],
    pub f: &'a [u8],
    pub ghost b_length: { length b.now ≡ length a.now },
    pub ghost c_length: { length c.now ≡ length a.now },
    pub ghost d_length: { length d.now ≡ length a.now },
    pub ghost e_length: { length e.now ≡ length a.now },
    pub ghost f_length: { length f.now ≡ length a.now },
}

/// Six parts of `count` bytes each. Each begins `step` bytes after the one before.
pub(crate) fn six_parts(piece: &[u8], step: usize, count: usize) -> SixParts<'_>
    requires { 5 * step + count ≤ length piece.now }
    ensures a { result.a.now ≡ take count piece.now }
    ensures b { result.b.now ≡ take count (drop step piece.now) }
    ensures c { result.c.now ≡ take count (drop (2 * step) piece.now) }
    ensures d { result.d.now ≡ take count (drop (3 * step) piece.now) }
    ensures e { result.e.now ≡ take count (drop (4 * step) piece.now) }
    ensures f { result.f.now ≡ take count (drop (5 * step) piece.now) }
    ensures length { length result.a.now ≡ count }
{
    SixParts {
        a: part(piece, 0, count),
        b: part(piece, step, count),
        c: part(piece, 2 * step, count),
        d: part(piece, 3 * step, count),
        e: part(piece, 4 * step, count),
        f: part(piece, 5 * step, count),
    }
}

// So many bytes of a piece, from a place on.
fn part(piece: &[u8], start: usize, count: usize) -> &[u8]
    requires { start + count ≤ length piece.now }
    ensures part { result.now ≡ take count (drop start piece.now) }
    ensures length { length result.now ≡ count }
{
    &piece[start..start + count]
}
