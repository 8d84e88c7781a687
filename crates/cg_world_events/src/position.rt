ghost use Rattle.std.specs.Prelude.{◌≡◌};
ghost use Rattle.cg_model.specs.Making.{position_on, printed_position};

use crate::WorldState;
use cg_base::ReplicaId;
use cg_report::Line;

impl WorldState {
    /// The replica's position on its last printed line, 0 where it has none or is down there. It takes no memory.
    pub fn printed_position(&self, p: ReplicaId) -> u64
        ensures { result ≡ printed_position self.now p }
    {
        match self.lines.last(p) {
            Some(line) => position_on(line),
            None => 0,
        }
    }
}

fn position_on(line: &Line) -> u64
    ensures { result ≡ position_on line.now }
{
    match &line.up {
        Some(up) => up.view.green_count,
        None => 0,
    }
}
