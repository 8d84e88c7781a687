use crate::line_reader::LineReader;
use crate::world_in_place::WorldInPlace;
use cg_base::{NoMemory, Row};
use cg_compare::LogList;
use cg_outcome::{Companion, Report, Totals};
use cg_world::World;
use std::alloc::Global;

/// A run under way: where memory comes from, and how much of the report is put; the number of the line that is performed,
/// or of the next one, and where it begins in the input; and how far the run has come, which is the world, what the
/// command keeps beside it, the reader of the lines, how many items were made, what they have shown, and the logs that
/// were read. Behind a call that has ended it, it is of no more use.
pub struct Run {
    pub alloc: Global,
    pub report: Report,
    pub line: u64,
    pub at: usize,
    pub world: WorldInPlace,
    pub companion: Companion,
    pub reader: LineReader,
    pub count: u64,
    pub totals: Totals,
    pub logs: LogList,
}

impl Drop for Run {
    fn drop(self) {
        let Run {
            alloc: _,
            report: _,
            line: _,
            at: _,
            world: _,
            companion: _,
            reader: _,
            count: _,
            totals: _,
            logs: _,
        } = self;
    }
}

impl Run {
    ghost use Rattle.std.specs.Prelude.{◌≡◌, IfOk};
    ghost use Rattle.cg_outcome.specs.Streaming.{first_stage};
    ghost use Rattle.cg_run.specs.Performing.{seen, seen_stage};

    /// Before the first line, with this beside the world.
    pub fn new(alloc: Global, report: Report, companion: Companion) -> Result<Run, NoMemory>
        ensures first { IfOk result (λ run. seen_stage run ≡ first_stage companion) }
        ensures report { IfOk result (λ run. run.report ≡ report) }
    {
        let world = WorldInPlace::new(alloc)?;
        Ok(Run {
            alloc,
            report,
            line: 1,
            at: 0,
            world,
            companion,
            reader: LineReader::new(),
            count: 0,
            totals: Totals::none(),
            logs: Row::new(alloc),
        })
    }

    /// The world at its end.
    pub fn into_world(self) -> Result<World, NoMemory>
        ensures { IfOk result (λ world. world.world ≡ (seen self).world) }
    {
        let Run {
            alloc: _,
            report: _,
            line: _,
            at: _,
            world,
            companion: _,
            reader: _,
            count: _,
            totals: _,
            logs: _,
        } = self;
        world.into_world()
    }
}
