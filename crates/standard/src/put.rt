//! What can be written into an output, and lines and tables of it.
ghost use Rattle.std.specs.Prelude.{◌≡◌, ℕ, ◌^◌, ◌<◌, List, ◌++◌, map, length, decimal};
ghost use Rattle.std.specs.List.{flat_map};
ghost use Rattle.text.specs.Output.{Appends};
ghost use Rattle.vocab.specs.Words.{names};
ghost use Rattle.standard.specs.Report.{Written};
ghost use Rattle.standard.specs.Texts.{line, value_text};

use scan::columns::titles;
use text::output::Output;
use vocab::kinds::Table;

/// What can be written into an output. Unlike `Display` it never fails: past the output's end it is measured.
pub trait Put {
    // its text
    ghost text: { Self → List ℕ };

    /// Appends the text.
    fn put(&self, output: &mut Output<'_>)
        ensures { Appends output.old (text self.now) output.new };
}

/// A value of a column.
#[derive(Clone, Copy, Debug, PartialEq, Eq, Hash)]
pub enum Value {
    Number(u64),
    Word(&'static [u8]),
}

impl Put for Value {
    ghost text = { value_text };

    fn put(&self, output: &mut Output<'_>) {
        match *self {
            Value::Number(n) => output.put_number(n),
            Value::Word(word) => output.put_bytes(word),
        }
    }
}

impl Put for u64 {
    ghost text = { decimal };

    fn put(&self, output: &mut Output<'_>) {
        output.put_number(*self);
    }
}

impl Put for &[u8] {
    ghost text = { λ word. word.now };

    fn put(&self, output: &mut Output<'_>) {
        output.put_bytes(self);
    }
}

/// Appends a line: its fields, parted by one space, and the line feed.
pub fn put_line<F: Put>(output: &mut Output<'_>, fields: &[F])
    ensures { Appends output.old (line (map F.text fields.now)) output.new }
{
    for (i, field) in fields.iter().enumerate() {
        if i > 0 {
            output.put_byte(b' ');
        }
        field.put(output);
    }
    output.put_byte(b'\n');
}

/// Appends a table: the line of its names, in the standard order, and then its rows.
pub fn put_table<R: Put>(output: &mut Output<'_>, table: Table, rows: &[R])
    ensures { Appends output.old (line (names table) ++ flat_map R.text rows.now) output.new }
{
    put_line(output, titles(table));
    for row in rows {
        row.put(output);
    }
}

/// The length of a text: an empty output measures it.
pub fn length_of<T: Put>(what: &T) -> usize
    requires { length (T.text what.now) < 2 ^ 64 }
    ensures { result ≡ length (T.text what.now) }
{
    let mut output = Output::new(&mut []);
    what.put(&mut output);
    output.end
}

/// Writes a text, and answers its length; none where the output is too short, which then stays as it was.
#[tactic(auto, using(text::proofs::Stamps::at_front))]
pub fn write_whole<T: Put>(what: &T, out: &mut [u8]) -> Option<usize>
    requires { length (T.text what.now) < 2 ^ 64 }
    ensures { Written (T.text what.now) out.old out.new result }
{
    if length_of(what) > out.len() {
        return None;
    }
    let mut output = Output::new(out);
    what.put(&mut output);
    Some(output.end)
}
