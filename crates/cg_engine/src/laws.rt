ghost use Rattle.cg_engine.specs.Defined.{HandlesAsDefined};

use cg_disk::{Disk, ModelDisk};
use cg_disk_records::what_is_held_agrees;
use cg_model::each_event_keeps_what_holds;
use cg_store::strikes_end_as_defined;

/// On a disk in memory an engine's event ends as the definitions of a step say, whatever strikes: with the replica behind
/// it, or with the disk that the crash leaves and the names that its recovery tells.
pub fn events_end_as_defined()
    ensures { HandlesAsDefined (⟦<ModelDisk as Disk>⟧.view) }
{
    what_is_held_agrees();
    each_event_keeps_what_holds();
    strikes_end_as_defined();
}
