ghost use Rattle.std.specs.Prelude.{◌≡◌, ◌<◌, ◌∷◌, length, IfSome};
ghost use Rattle.av_base.specs.Line.{lines_of, pieces_of, rest_of};
ghost use Rattle.std.specs.Option.{option_copied};

/// The byte that ends a line.
pub const LF: u8 = 10;

/// The first line, without its end, and what follows it.
pub fn first_line(bytes: &[u8]) -> (&[u8], &[u8])
    requires { 0 < length bytes.now }
    ensures lines { lines_of bytes.now ≡ result.0.now ∷ lines_of result.1.now }
    ensures shorter { length result.1.now < length bytes.now }
{
    for (i, b) in bytes.iter().enumerate() {
        if *b == LF {
            return (&bytes[..i], &bytes[i + 1..]);
        }
    }
    (bytes, &bytes[bytes.len()..])
}

/// What stands before the first separator and what stands behind it, where there is one.
pub fn first_piece(bytes: &[u8], separator: u8) -> (&[u8], Option<&[u8]>)
    ensures pieces { pieces_of separator bytes.now ≡ result.0.now ∷ rest_of separator (option_copied result.1) }
    ensures shorter { IfSome result.1 (λ rest. length rest.now < length bytes.now) }
{
    for (i, b) in bytes.iter().enumerate() {
        if *b == separator {
            return (&bytes[..i], Some(&bytes[i + 1..]));
        }
    }
    (bytes, None)
}
