//! The rows of the tables, a session and a fault, as they are written.
ghost use Rattle.format.specs.Content.{standard};
ghost use Rattle.format.specs.Tables.{setting_values, link_values, step_values};
ghost use Rattle.session.specs.Seen.{content, judgement};
ghost use Rattle.standard.specs.Report.{fault_text, report_text};
ghost use Rattle.standard.specs.Texts.{line};

use crate::put::{Put, Value, put_line, put_table};
use mesh::link::Link;
use session::session::Session;
use text::output::Output;
use text::word::Word;
use vocab::faults::ReadFault;
use vocab::kinds::{Setting, Step, Table};

impl Put for Setting {
    ghost text = { λ setting. line (setting_values setting) };

    fn put(&self, output: &mut Output<'_>) {
        put_line(
            output,
            &[
                Value::Number(u64::from(self.nodes)),
                Value::Number(u64::from(self.root)),
                Value::Word(self.kind.word()),
                Value::Word(self.detector.word()),
                Value::Word(self.channel.word()),
            ],
        );
    }
}

impl Put for Link {
    ghost text = { λ link. line (link_values link) };

    fn put(&self, output: &mut Output<'_>) {
        put_line(
            output,
            &[
                u64::from(self.from),
                u64::from(self.to),
                u64::from(self.cost),
                u64::from(self.width),
            ],
        );
    }
}

impl Put for Step {
    ghost text = { λ step. line (step_values step) };

    fn put(&self, output: &mut Output<'_>) {
        put_line(
            output,
            &[
                Value::Word(self.action.word()),
                Value::Number(u64::from(self.pick)),
            ],
        );
    }
}

// A session in the standard order.
impl Put for Session {
    ghost text = { λ session. standard (content session) };

    fn put(&self, output: &mut Output<'_>) {
        let setting = Setting {
            nodes: self.mesh.nodes,
            root: self.mesh.root,
            kind: self.kind,
            detector: self.detector,
            channel: self.channel,
        };
        put_table(output, Table::Settings, &[setting]);
        put_table(output, Table::Links, &self.mesh.links);
        put_table(output, Table::Steps, &self.steps);
    }
}

// A fault: its names, and then its number, layer, line and field.
impl Put for ReadFault {
    ghost text = { fault_text };

    fn put(&self, output: &mut Output<'_>) {
        let names: [&[u8]; 4] = [b"fault", b"layer", b"line", b"field"];
        put_line(output, &names);
        put_line(
            output,
            &[
                Value::Number(u64::from(self.number())),
                Value::Word(self.layer().word()),
                Value::Number(self.line() as u64),
                Value::Number(self.field() as u64),
            ],
        );
    }
}

// What is printed of an answer of the reader.
impl Put for Result<Session, ReadFault> {
    ghost text = { λ answer. report_text (judgement answer) };

    fn put(&self, output: &mut Output<'_>) {
        match self {
            Ok(session) => session.put(output),
            Err(fault) => fault.put(output),
        }
    }
}
