//! A line of fields.
ghost use Rattle.text.specs.Lines.{HasFields};
ghost use Rattle.text.specs.FieldsOnce.{has_fields_once};

/// A line of so many fields, without its line feed.
#[derive(Clone, Copy, Debug, PartialEq, Eq, Hash)]
pub struct Line<'a> {
    pub text: &'a [u8],
    pub fields: usize,
    ghost cut: { HasFields text.now fields } by { has_fields_once text.now fields },
}
