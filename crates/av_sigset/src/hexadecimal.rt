ghost use Rattle.std.specs.Prelude.{◌≡◌, ◌&&◌, ◌==◌, ◌%◌, length};
ghost use Rattle.std.specs.List.{list_all};
ghost use Rattle.hex.specs.Hex.{is_hex_digit};

/// Whether a word is pairs of hexadecimal digits of either case, no pair among them. It takes no memory.
pub fn is_hex(word: &[u8]) -> bool
    ensures { result ≡ (length word.now % 2 == 0) && list_all is_hex_digit word.now }
{
    word.len() % 2 == 0 && are_hex_digits(word)
}

fn are_hex_digits(word: &[u8]) -> bool
    ensures { result ≡ list_all is_hex_digit word.now }
{
    for byte in word {
        if !byte.is_ascii_hexdigit() {
            return false;
        }
    }
    true
}
