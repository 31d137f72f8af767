//! The form of a line: 48 digits, one space, 32 digits.
ghost use Rattle.std.specs.Prelude.{◌≡◌, ◌<◌, length, IfSome};
ghost use Rattle.keyline.specs.Lines.{fits as fits_of, misfit};

/// Whether a character may stand at a place.
fn fits(place: usize, c: u8) -> bool
    ensures { result ≡ fits_of place c }
{
    if place == 48 {
        c == b' '
    } else {
        c.is_ascii_hexdigit()
    }
}

/// The first place whose character may not stand there.
pub fn first_misfit(line: &[u8]) -> Option<usize>
    ensures value { result ≡ misfit line.now }
    ensures within { IfSome result (λ place. place < length line.now) }
{
    line.iter()
        .enumerate()
        .position(|(place, c)| !fits(place, *c))
}
