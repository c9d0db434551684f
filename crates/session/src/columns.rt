//! Lines whose columns stand in an order of the writer's own.
ghost use Rattle.std.specs.Prelude.{◌≡◌, ℕ, ◌<◌, List, ◌∷◌, length, MatchResult};
ghost use Rattle.fault.specs.Checks.{Fails, check};
ghost use Rattle.std.specs.List.{AllByRecursion};
ghost use Rattle.text.specs.Lines.{HasFields, Field, spaced};
ghost use Rattle.vocab.specs.declared.faults.LineFault.TheVariants.{Layout, WrongNames};
ghost use Rattle.format.specs.Columns.{Order, arranged, texts};
ghost use Rattle.vocab.specs.Words.{names};
ghost use Rattle.format.specs.Filling.{Filled, Apart};
ghost use Rattle.format.specs.Verdict.{names_checks, field_checks};

use crate::order::Columns;
use format::rows::Row;
use scan::columns::{find, titles};
use scan::lines::at_field;
use text::cut::first_field;
use text::line::Line;
use vocab::faults::LineFault;
use vocab::kinds::Table;

/// Refuses a line that has another number of fields than `n`.
pub fn has_fields(line: Line<'_>, n: usize) -> Result<(), LineFault>
    ensures { MatchResult result (λ _. HasFields line.entry.text.now n) (λ e. (HasFields line.entry.text.now n → ⊥) × (e ≡ Layout)) }
{
    if line.fields == n {
        Ok(())
    } else {
        Err(LineFault::Layout)
    }
}

// The order in which the words stand in a line of as many fields.
fn order_of<const N: usize>(words: &[&[u8]], line: &[u8]) -> Result<Columns<N>, LineFault>
    requires many { length words.now ≡ N }
    requires apart { Apart (texts words.now) }
    requires fields { AllByRecursion Field (texts words.now) }
    requires some { 0 < N }
    requires cut { HasFields line.now N }
    ensures { MatchResult result (λ c. line.now ≡ spaced (arranged c.order (texts words.now))) (λ e. (((o : List ℕ) × Order N o × (line.now ≡ spaced (arranged o (texts words.now)))) → ⊥) × (e ≡ WrongNames)) }
{
    let mut order = [0; N];
    let mut rest = line;
    for i in 0..N {
        let (text, after) = first_field(rest);
        let k = find(words, text).ok_or(LineFault::WrongNames)?;
        if order[..i].contains(&k) {
            return Err(LineFault::WrongNames);
        }
        order[i] = k;
        rest = after;
    }
    Ok(Columns { order })
}

/// Reads a line of a table's names into the order of its columns.
pub fn names_line<const N: usize>(table: Table, line: Line<'_>) -> Result<Columns<N>, LineFault>
    requires { length (names table) ≡ N }
    ensures { MatchResult result (λ c. line.entry.text.now ≡ spaced (arranged c.order (names table))) (Fails (names_checks (names table) line.entry.text.now)) }
{
    has_fields(line, N)?;
    order_of(titles(table), line.text)
}

/// Fills a row from the fields of a line, swept left to right, whose columns stand in this order.
pub fn fill<const N: usize, R: Row>(
    row: &mut R,
    columns: &Columns<N>,
    line: Line<'_>,
) -> Result<(), LineFault>
    requires many { length (R.values row.old) ≡ N }
    requires cut { HasFields line.text.now N }
    ensures base { R.base row.new ≡ R.base row.old }
    ensures fills { MatchResult result (λ _. Filled (R.takes (R.base row.old)) columns.now.order line.entry.text.now (R.values row.new) (R.fits row.new)) (Fails (field_checks (R.takes (R.base row.old)) line.entry.text.now 0 columns.now.order)) }
{
    let mut rest = line.text;
    for (i, column) in columns.order.iter().enumerate() {
        let (text, after) = first_field(rest);
        at_field(i + 1, row.put(*column, text))?;
        rest = after;
    }
    Ok(())
}

/// The row with the values of a line, which must have as many fields as the table has columns.
pub fn filled<const N: usize, R: Row + Copy>(
    mut row: R,
    columns: &Columns<N>,
    line: Line<'_>,
) -> Result<R, LineFault>
    requires { length (R.values row) ≡ N }
    ensures { MatchResult result (λ r. (R.base r ≡ R.base row) × HasFields line.entry.text.now N × Filled (R.takes (R.base row)) columns.now.order line.entry.text.now (R.values r) (R.fits r)) (Fails (check Layout (HasFields line.entry.text.now N) ∷ field_checks (R.takes (R.base row)) line.entry.text.now 0 columns.now.order)) }
{
    has_fields(line, N)?;
    fill(&mut row, columns, line)?;
    Ok(row)
}
