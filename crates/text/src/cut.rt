//! A text cut into lines, and a line into fields.
ghost use Rattle.std.specs.Prelude.{◌<◌, ◌≤◌, length, take, slice_index, All};
ghost use Rattle.text.specs.FirstLine.{FirstLine};
ghost use Rattle.text.specs.Lines.{Mark, Parted};

use crate::line::Line;

// The least and the greatest byte that a field may hold.
const FIRST_MARK: u8 = 33;

const LAST_MARK: u8 = 126;

// How many bytes of a field stand at the front.
fn span(text: &[u8]) -> usize
    ensures within { result ≤ length text.now }
    ensures marks { All Mark (take result text.now) }
    ensures stops { result < length text.now → Mark (slice_index text.now result) → ⊥ }
{
    text.iter()
        .position(|b| !(FIRST_MARK..=LAST_MARK).contains(b))
        .unwrap_or(text.len())
}

/// The line of fields at the front of a text, without its line feed, and what follows. None where the text does not begin with fields, parted by one space, and then a line feed.
pub fn first_line(text: &[u8]) -> Option<(Line<'_>, &[u8])>
    ensures { FirstLine text.now result }
{
    let mut fields = 0;
    let mut rest = text;
    loop {
        let (field, after) = rest.split_at(span(rest));
        if field.is_empty() {
            return None;
        }
        fields += 1;
        match after {
            [b'\n', next @ ..] => {
                let line = &text[..text.len() - after.len()];
                return Some((Line { text: line, fields }, next));
            }
            [b' ', next @ ..] => rest = next,
            _ => return None,
        }
    }
}

/// The field at the front of a line, and what follows the byte that parts it from the next.
pub fn first_field(line: &[u8]) -> (&[u8], &[u8])
    ensures { Parted line.now result.0.now result.1.now }
{
    let (field, after) = line.split_at(span(line));
    match after {
        [] => (field, after),
        [_, rest @ ..] => (field, rest),
    }
}
