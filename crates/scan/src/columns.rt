//! The names of columns, and their places.
ghost use Rattle.std.specs.Prelude.{◌≡◌, ◌≤◌, length};
ghost use Rattle.format.specs.Columns.{texts};
ghost use Rattle.format.specs.Filling.{Found};
ghost use Rattle.format.specs.Verdict.{place_of};
ghost use Rattle.vocab.specs.Words.{names};

use vocab::kinds::Table;

/// The names of a table's columns, in the standard order.
pub fn titles(table: Table) -> &'static [&'static [u8]]
    ensures { texts result.now ≡ names table }
{
    match table {
        Table::Settings => &[b"nodes", b"root", b"kind", b"detector", b"channel"],
        Table::Links => &[b"from", b"to", b"cost", b"width"],
        Table::Steps => &[b"step", b"pick"],
    }
}

/// The place of a word in a list of words.
pub fn find(words: &[&[u8]], text: &[u8]) -> Option<usize>
    ensures { Found (texts words.now) text.now result }
{
    words.iter().position(|word| *word == text)
}

/// The place of a column in an order, from 0.
pub fn place(order: &[usize], column: usize) -> usize
    ensures within { result ≤ length order.now }
    ensures found { result ≡ place_of column order.now }
{
    order
        .iter()
        .position(|k| *k == column)
        .unwrap_or(order.len())
}
