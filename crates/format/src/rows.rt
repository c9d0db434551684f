//! The rows of the three tables, filled column by column.
ghost use Rattle.std.specs.Prelude.{◌≡◌, ℕ, List, MatchResult};
ghost use Rattle.format.specs.Tables.{setting_values, link_values, step_values, setting_takes, link_takes, step_takes};
ghost use Rattle.format.specs.Filling.{PutAt, setting_fits, link_fits, step_fits};

use mesh::link::Link;
use text::number::{FieldFault, number};
use text::word::word_of;
use vocab::kinds::{Setting, Step};

/// What a line of a table holds, column by column.
pub trait Row {
    // what the columns' ranges depend on: the number of nodes, where it matters
    ghost base: { Self → ℕ };

    // the texts of the columns, in the standard order
    ghost values: { Self → List (List ℕ) };

    // what a text in a column may be, by the base
    ghost takes: { ℕ → ℕ → List ℕ → Type 0 };

    // what is in a column is in range
    ghost fits: { Self → ℕ → Type 0 };

    /// Puts a text into a column, from 0; refused where the column does not take it.
    fn put(&mut self, column: usize, text: &[u8]) -> Result<(), FieldFault>
        ensures base { base self.new ≡ base self.old }
        ensures puts { MatchResult result (λ _. takes (base self.old) column text.now × PutAt column text.now (values self.old) (values self.new) (fits self.old) (fits self.new)) (λ _. (takes (base self.old) column text.now → ⊥)) };
}

/// A link line of a mesh of so many nodes.
#[derive(Clone, Copy, Debug, PartialEq, Eq, Hash)]
pub struct LinkRow {
    pub nodes: u8,
    pub link: Link,
}

impl Row for Setting {
    ghost base = { λ _. 0 };

    ghost values = { setting_values };

    ghost takes = { λ _. setting_takes };

    ghost fits = { setting_fits };

    fn put(&mut self, column: usize, text: &[u8]) -> Result<(), FieldFault> {
        match column {
            0 => self.nodes = number(text, 1, 64)? as u8,
            1 => self.root = number(text, 0, 63)? as u8,
            2 => self.kind = word_of(text)?,
            3 => self.detector = word_of(text)?,
            4 => self.channel = word_of(text)?,
            _ => return Err(FieldFault),
        }
        Ok(())
    }
}

impl Row for LinkRow {
    ghost base = { λ r. r.nodes };

    ghost values = { λ r. link_values r.link };

    ghost takes = { link_takes };

    ghost fits = { link_fits };

    fn put(&mut self, column: usize, text: &[u8]) -> Result<(), FieldFault> {
        let last = u16::from(self.nodes.saturating_sub(1));
        match column {
            0 => self.link.from = number(text, 0, last)? as u8,
            1 => self.link.to = number(text, 0, last)? as u8,
            2 => self.link.cost = number(text, 0, 65535)?,
            3 => self.link.width = number(text, 1, 65535)?,
            _ => return Err(FieldFault),
        }
        Ok(())
    }
}

impl Row for Step {
    ghost base = { λ _. 0 };

    ghost values = { step_values };

    ghost takes = { λ _. step_takes };

    ghost fits = { step_fits };

    fn put(&mut self, column: usize, text: &[u8]) -> Result<(), FieldFault> {
        match column {
            0 => self.action = word_of(text)?,
            1 => self.pick = number(text, 0, 65535)?,
            _ => return Err(FieldFault),
        }
        Ok(())
    }
}
