//! Label kinds that can be printed.
ghost use Rattle.std.specs.Prelude.{ℕ, List};
ghost use Rattle.text.specs.Output.{Appends};
ghost use Rattle.label.specs.Texts.{value_text};

use crate::label::Label;
use text::output::Output;

/// A label kind with a text.
pub trait Printed: Label {
    // the text of a label
    ghost text: { Self → List ℕ };

    /// Appends the text.
    fn put_text(&self, output: &mut Output<'_>)
        ensures { Appends output.old (text self.now) output.new };
}

// Appends a value, or a minus sign for none.
pub(crate) fn put_value(value: Option<u64>, output: &mut Output<'_>)
    ensures { Appends output.old (value_text value) output.new }
{
    match value {
        Some(n) => output.put_number(n),
        None => output.put_byte(b'-'),
    }
}
