//! A number in a field.
ghost use Rattle.std.specs.Prelude.{◌≡◌, ◌<◌, ◌↔◌, length, IsTrue, MatchResult, Some, codes, slice_index};
ghost use Rattle.text.specs.Decimal.{Writes, Number};

use std::error::Error;
use std::fmt;

/// A field does not hold what its column takes.
#[derive(Clone, Copy, Debug, PartialEq, Eq, Hash)]
pub struct FieldFault;

impl fmt::Display for FieldFault {
    ghost output = { λ _. Some (codes "the column does not take the field") };

    fn fmt<W: fmt::Write>(&self, f: &mut fmt::Formatter<W>) -> fmt::Result {
        f.write_str("the column does not take the field")
    }
}

impl Error for FieldFault {}

// Whether a zero stands before other bytes.
fn padded(text: &[u8]) -> bool
    ensures { IsTrue result ↔ ((1 < length text.now) × (slice_index text.now 0 ≡ 48)) }
{
    matches!(text, [b'0', _, ..])
}

/// The number from `low` to `high` that `text` writes in decimal, without a leading zero.
/// A text of any length is judged: once the value is above `high`, further digits keep it there.
pub fn number(text: &[u8], low: u16, high: u16) -> Result<u16, FieldFault>
    ensures { MatchResult result (Writes low high text.now) (λ _. (Number low high text.now → ⊥)) }
{
    let most = u32::from(high);
    let mut value: u32 = 0;
    for b in text {
        if !b.is_ascii_digit() {
            return Err(FieldFault);
        }
        if value <= most {
            value = value * 10 + u32::from(*b - b'0');
        }
    }
    if text.is_empty() {
        return Err(FieldFault);
    }
    if padded(text) {
        return Err(FieldFault);
    }
    if value < u32::from(low) {
        return Err(FieldFault);
    }
    if value > most {
        return Err(FieldFault);
    }
    Ok(value as u16)
}
