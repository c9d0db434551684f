//! The lines of values.
ghost use Rattle.std.specs.Prelude.{◌≡◌, ◌<◌, ◌≤◌, [], ◌∷◌, ◌++◌, length, MatchResult};
ghost use Rattle.fault.specs.Checks.{Fails};
ghost use Rattle.text.specs.Lines.{spaced};
ghost use Rattle.mesh.specs.declared.link.Link.{Link as ALink};
ghost use Rattle.mesh.specs.Rules.{EndsDiffer, Joins};
ghost use Rattle.format.specs.Columns.{arranged};
ghost use Rattle.format.specs.Tables.{setting_values, step_values};
ghost use Rattle.format.specs.Content.{SettingKept};
ghost use Rattle.format.specs.Verdict.{setting_checks, link_line_checks, step_checks, LinkLine};

use crate::columns::{fill, filled, has_fields};
use crate::order::Columns;
use format::rows::LinkRow;
use mesh::link::{Link, LinkFault};
use mesh::mesh::Mesh;
use scan::columns::place;
use text::line::Line;
use vocab::faults::LineFault;
use vocab::kinds::{Action, Channel, Detector, Kind, Setting, Step};

// The column of the root among the settings.
const ROOT: usize = 1;

/// The settings that a line writes.
pub fn setting_line(columns: &Columns<5>, line: Line<'_>) -> Result<Setting, LineFault>
    ensures { MatchResult result (λ h. SettingKept h × (line.entry.text.now ≡ spaced (arranged columns.now.order (setting_values h)))) (Fails (setting_checks columns.now.order line.entry.text.now)) }
{
    let unset = Setting {
        nodes: 1,
        root: 0,
        kind: Kind::Cost,
        detector: Detector::Tree,
        channel: Channel::Queue,
    };
    let setting = filled(unset, columns, line)?;
    if setting.root >= setting.nodes {
        return Err(LineFault::BadField(place(&columns.order, ROOT) + 1));
    }
    Ok(setting)
}

/// Adds the link that a line writes to the mesh.
pub fn link_line(mesh: &mut Mesh, columns: &Columns<4>, line: Line<'_>) -> Result<(), LineFault>
    ensures nodes { mesh.new.nodes ≡ mesh.old.nodes }
    ensures root { mesh.new.root ≡ mesh.old.root }
    ensures joins { MatchResult result (λ _. ((l : ALink) × LinkLine columns.now.order mesh.old.nodes line.entry.text.now l × (length mesh.old.links.items < 512) × EndsDiffer l × (Joins mesh.old.links.items l.from l.to → ⊥) × (mesh.new.links.items ≡ mesh.old.links.items ++ l ∷ []))) (λ e. Fails (link_line_checks columns.now.order mesh.old.nodes mesh.old.links.items line.entry.text.now) e × (mesh.new.links.items ≡ mesh.old.links.items)) }
{
    has_fields(line, 4)?;
    if mesh.is_full() {
        return Err(LineFault::BadLink(LinkFault::TooMany));
    }
    let mut row = LinkRow {
        nodes: mesh.nodes,
        link: Link {
            from: 0,
            to: 0,
            cost: 0,
            width: 1,
        },
    };
    fill(&mut row, columns, line)?;
    mesh.join(row.link)?;
    Ok(())
}

/// The step that a line writes.
pub fn step_line(columns: &Columns<2>, line: Line<'_>) -> Result<Step, LineFault>
    ensures { MatchResult result (λ s. (s.pick ≤ 65535) × (line.entry.text.now ≡ spaced (arranged columns.now.order (step_values s)))) (Fails (step_checks columns.now.order line.entry.text.now)) }
{
    let unset = Step {
        action: Action::Deliver,
        pick: 0,
    };
    filled(unset, columns, line)
}
