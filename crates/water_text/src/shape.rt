//! Texts of a fixed shape, as `dddd-dd` with a digit for each `d`.
ghost use Rattle.std.specs.Prelude.{◌≡◌, ◌==◌};
ghost use Rattle.water_text.specs.Shapes.{has_shape, fits_at};

fn fits(pattern: u8, byte: u8) -> bool
    ensures { result ≡ fits_at pattern byte }
{
    if pattern == b'd' {
        byte.is_ascii_digit()
    } else {
        byte == pattern
    }
}

/// Whether the text has a digit for each `d` of the pattern, and else the pattern's byte.
pub fn has_shape(pattern: &[u8], text: &[u8]) -> bool
    ensures { result ≡ has_shape pattern.now text.now }
{
    if pattern.len() != text.len() {
        return false;
    }
    for (at, byte) in text.iter().enumerate() {
        if !fits(pattern[at], *byte) {
            return false;
        }
    }
    true
}
