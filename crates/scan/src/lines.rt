//! Lines, and the faults of lines and fields with their place.
ghost use Rattle.std.specs.Prelude.{◌≡◌};
ghost use Rattle.format.specs.Stages.{NextLine};
ghost use Rattle.format.specs.Verdict.{digit_first};
ghost use Rattle.scan.specs.Placed.{placed_field, placed_line};

use text::cut::first_line;
use text::line::Line;
use text::number::FieldFault;
use vocab::faults::{LineFault, ReadFault};

/// What a field gave, its fault with the field's number.
pub fn at_field<T>(field: usize, r: Result<T, FieldFault>) -> Result<T, LineFault>
    ensures { result ≡ placed_field field r }
{
    r.map_err(|_| LineFault::BadField(field))
}

/// What a line gave, its fault with the line's number.
pub fn at_line<T>(line: usize, r: Result<T, LineFault>) -> Result<T, ReadFault>
    ensures { result ≡ placed_line line r }
{
    r.map_err(|fault| ReadFault::Line(line, fault))
}

/// The next line, which has this number and must come, and what follows it.
pub fn next_line(number: usize, rest: &[u8]) -> Result<(Line<'_>, &[u8]), ReadFault>
    ensures { NextLine number rest.now result }
{
    if rest.is_empty() {
        return Err(ReadFault::Missing(number));
    }
    first_line(rest).ok_or(ReadFault::Line(number, LineFault::Layout))
}

/// Whether a line in the table of links is a link line: its first byte decides.
pub fn is_link_line(line: &[u8]) -> bool
    ensures { result ≡ digit_first line.now }
{
    match line {
        [first, _rest @ ..] => first.is_ascii_digit(),
        [] => false,
    }
}
