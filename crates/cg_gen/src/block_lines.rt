ghost use Rattle.std.specs.Prelude.{◌≡◌, ◌∷◌, [], MatchOption};
ghost use Rattle.cg_gen.specs.Waiting.{waiting_lines};

use cg_base::{IdSet, ReplicaId, WeightSet};
use cg_schedule::Event;

/// The lines of a block that wait.
#[derive(Clone, Copy)]
pub(crate) enum BlockLines {
    Nothing,
    /// All start, and come together.
    Start(IdSet),
    Merge(IdSet),
    MergeBoth(IdSet, IdSet),
    /// The one cell is split, and then all of two cells come together.
    SplitThenMerge(IdSet, IdSet),
    /// The second half is split, and then each half comes together.
    SplitThenBoth(IdSet, IdSet),
    /// The replica comes back, and is a cell by itself.
    Recover(ReplicaId),
}

/// The next line that waits, and those behind it.
pub(crate) fn next_waiting(waiting: &mut BlockLines) -> Option<Event>
    ensures { MatchOption result ((waiting_lines waiting.old ≡ []) × (waiting_lines waiting.new ≡ []))
        (λ event. waiting_lines waiting.old ≡ event ∷ waiting_lines waiting.new) }
{
    let now = *waiting;
    match now {
        BlockLines::Nothing => None,
        BlockLines::Start(all) => {
            *waiting = BlockLines::Merge(all);
            Some(Event::Start(WeightSet::of(&all)))
        }
        BlockLines::Merge(set) => {
            *waiting = BlockLines::Nothing;
            Some(Event::Merge(set))
        }
        BlockLines::MergeBoth(first, second) => {
            *waiting = BlockLines::Merge(second);
            Some(Event::Merge(first))
        }
        BlockLines::SplitThenMerge(set, all) => {
            *waiting = BlockLines::Merge(all);
            Some(Event::Split(set))
        }
        BlockLines::SplitThenBoth(first, second) => {
            *waiting = BlockLines::MergeBoth(first, second);
            Some(Event::Split(second))
        }
        BlockLines::Recover(p) => {
            *waiting = BlockLines::Merge(IdSet::single(p));
            Some(Event::Recover(p))
        }
    }
}
