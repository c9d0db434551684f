//! The reader: a session file, line by line.
ghost use Rattle.std.specs.Prelude.{◌≡◌, ℕ, ◌≤◌, List, [], ◌∷◌, ◌++◌, length, IfOk, vec_len, vec_capacity, MatchResult, OnOk};
ghost use Rattle.format.specs.Columns.{arranged};
ghost use Rattle.format.specs.Stages.{NamesRefused, LinksRead, LinksRefused, StepsRead, StepsRefused};
ghost use Rattle.format.specs.Verdict.{UpTo, Refuses, at_link_names, Judged};
ghost use Rattle.format.specs.Content.{standard};
ghost use Rattle.text.specs.Lines.{spaced};
ghost use Rattle.vocab.specs.Words.{names};
ghost use Rattle.session.specs.Seen.{content, judgement, Answers};

use crate::columns::names_line;
use crate::lines::{link_line, setting_line, step_line};
use crate::order::Columns;
use crate::session::{Room, Session};
use mesh::mesh::{LinkRoom, Mesh};
use scan::lines::{at_line, is_link_line, next_line};
use std::alloc::{AllocError, Global};
use text::line::Line;
use vocab::faults::{ReadError, ReadFault};
use vocab::kinds::{Setting, Step, Table};

/// The most bytes a session file may have.
pub const MAX_BYTES: usize = 65536;

// The order of a table's columns, from the line of its names, and what follows that line.
fn table_names<const N: usize>(
    number: usize,
    table: Table,
    rest: &[u8],
) -> Result<(Columns<N>, &[u8]), ReadFault>
    requires { length (names table) ≡ N }
    ensures { MatchResult result (λ x. rest.now ≡ spaced (arranged x.0.order (names table)) ++ 10 ∷ x.1.now) (NamesRefused number table rest.now) }
{
    let (line, after) = next_line(number, rest)?;
    let columns = at_line(number, names_line(table, line))?;
    Ok((columns, after))
}

// The settings, and what follows their table.
fn setting_table(bytes: &[u8]) -> Result<(Setting, &[u8]), ReadFault>
    requires { length bytes.now ≤ 65536 }
    ensures { MatchResult result (λ x. ((o : List ℕ) × UpTo bytes.now (at_link_names o x.0) x.1.now)) (Refuses bytes.now) }
{
    let (columns, values) = table_names(1, Table::Settings, bytes)?;
    let (line, rest) = next_line(2, values)?;
    let setting = at_line(2, setting_line(&columns, line))?;
    Ok((setting, rest))
}

// Reads the link lines into the mesh, and answers the line after them and what follows it.
fn link_table<'a>(
    columns: &Columns<4>,
    mesh: &mut Mesh,
    text: &'a [u8],
) -> Result<(Line<'a>, &'a [u8]), ReadFault>
    requires { mesh.old.links.items ≡ [] }
    ensures nodes { mesh.new.nodes ≡ mesh.old.nodes }
    ensures root { mesh.new.root ≡ mesh.old.root }
    ensures reads { MatchResult result (λ x. LinksRead columns.now.order mesh.old.nodes text.now mesh.new.links.items x.0.text.now x.1.now) (LinksRefused columns.now.order mesh.old.nodes text.now) }
{
    let mut rest = text;
    loop {
        let number = 4 + mesh.links.len();
        let (line, after) = next_line(number, rest)?;
        if !is_link_line(line.text) {
            return Ok((line, after));
        }
        at_line(number, link_line(mesh, columns, line))?;
        rest = after;
    }
}

// Reads the step lines, the first of which has this number.
fn step_table(
    columns: &Columns<2>,
    first: usize,
    steps: &mut Vec<Step>,
    text: &[u8],
) -> Result<(), ReadFault>
    requires near { first ≤ 65536 }
    requires none { vec_len steps.old ≡ 0 }
    requires short { length text.now ≤ 65536 }
    requires room { 16384 ≤ vec_capacity steps.old }
    ensures reads { MatchResult result (λ _. StepsRead columns.now.order text.now steps.new.items) (StepsRefused columns.now.order first text.now) }
{
    let mut rest = text;
    while !rest.is_empty() {
        let number = first + steps.len();
        let (line, after) = next_line(number, rest)?;
        let step = at_line(number, step_line(columns, line))?;
        steps.push_reserved(step);
        rest = after;
    }
    Ok(())
}

// As many steps as a session file can hold: a line of two fields has four bytes at the least.
const MAX_STEPS: usize = 16384;

impl Room {
    /// Reserves memory for whatever a session file may hold. The reader itself asks for none.
    pub fn reserve(heap: Global) -> Result<Room, AllocError>
        ensures { IfOk result (λ room. (room.steps.items ≡ []) × (16384 ≤ vec_capacity room.steps)) }
    {
        let links = LinkRoom::reserve(heap)?;
        let steps = Vec::with_capacity(heap, MAX_STEPS)?;
        Ok(Room { links, steps })
    }

    /// Reads a session file: the session that it writes, or the first check that it fails.
    /// In the standard order the session's text is as long as the file.
    pub fn read(self, bytes: &[u8]) -> Result<Session, ReadFault>
        ensures judged { Judged bytes.now (judgement result) }
        ensures sized { IfOk result (λ s. length (standard (content s)) ≡ length bytes.now) }
    {
        if bytes.len() > MAX_BYTES {
            return Err(ReadFault::TooLong);
        }
        let Room { links, mut steps } = self;
        let (setting, names_text) = setting_table(bytes)?;
        let (columns, links_text) = table_names(3, Table::Links, names_text)?;
        let mut mesh = Mesh::open(links, setting.nodes, setting.root).unwrap();
        let (names, steps_text) = link_table(&columns, &mut mesh, links_text)?;
        let number = 4 + mesh.links.len();
        let step_columns = at_line(number, names_line(Table::Steps, names))?;
        step_table(&step_columns, number + 1, &mut steps, steps_text)?;
        Ok(Session {
            mesh,
            kind: setting.kind,
            detector: setting.detector,
            channel: setting.channel,
            steps,
        })
    }
}

/// Reads a session file with memory of its own: reserves it first, and then reads.
pub fn read(heap: Global, bytes: &[u8]) -> Result<Session, ReadError>
    ensures { Answers bytes.now result }
{
    let room = Room::reserve(heap)?;
    Ok(room.read(bytes)?)
}
