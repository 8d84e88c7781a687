//! What is seen of a replica that is up.
ghost use Rattle.std.specs.Prelude.{◌≡◌, IfOk, Some};
ghost use Rattle.cg_model.specs.Show.{shown_phase, up_line};
ghost use Rattle.cg_model.specs.Step.{shown_of};

use crate::Engine;
use cg_base::{NoMemory, Row};
use cg_client::names_of;
use cg_disk::Disk;
use cg_group::Phase;
use cg_report::{Line, Shown, ShownPhase, UpLine};
use std::alloc::Global;

impl<D: Disk> Engine<D> {
    /// Its line, where it stands so in the group.
    pub fn line(&self, phase: Phase) -> Result<Line, NoMemory>
        ensures { IfOk result (λ l. l ≡ record { id = self.now.store.id; up = Some (up_line phase self.now.replica) }) }
    {
        let up = UpLine {
            state: self.state(),
            phase: shown_phase(phase),
            view: self.core().view()?,
        };
        Ok(Line {
            id: self.id(),
            up: Some(up),
        })
    }

    /// Its green actions and its database.
    pub fn shows(&self, alloc: Global) -> Result<Row<Shown>, NoMemory>
        ensures { IfOk result (λ list. list ≡ shown_of self.now.replica) }
    {
        let core = self.core();
        let p = core.id();
        let list = names_of(alloc, core.greens()?.as_slice())?;
        let entries = core.entries()?;
        let mut shown = Row::new(alloc);
        shown.push(Shown::Greens { p, list })?;
        shown.push(Shown::Database { p, entries })?;
        Ok(shown)
    }
}

// A phase as a line shows it.
fn shown_phase(phase: Phase) -> ShownPhase
    ensures { result ≡ shown_phase phase }
{
    match phase {
        Phase::Regular { conf } => ShownPhase::Regular(conf),
        Phase::Transitional { conf, .. } => ShownPhase::Transitional(conf),
        _ => ShownPhase::Alone,
    }
}
