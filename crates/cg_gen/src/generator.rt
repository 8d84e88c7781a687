ghost use Rattle.std.specs.Prelude.{◌≡◌, [], ◌∷◌, IfOk, OnErr, MatchOption};
ghost use Rattle.cg_base.specs.Lists.{count_up};
ghost use Rattle.cg_gen.specs.Generated.{generated};

use crate::generator_state::GeneratorState;
use cg_base::{IdSet, NoMemory, ReplicaId};
use cg_schedule::Event;
use std::alloc::Global;
use std::marker::Model;

/// The schedule of a seed, an event at a time. Clauses see the events that are left.
#[derive(Drop)]
pub struct Generator {
    replicas: ReplicaId,
    // the lines that are left, the end among them
    left: u64,
    state: GeneratorState,
}

impl Model for Generator {
    ghost use Rattle.std.specs.Prelude.{List};
    ghost use Rattle.cg_schedule.specs.declared.event.Event.{Event};
    ghost use Rattle.cg_gen.specs.Generated.{events_left};

    ghost Value = { List Event };

    ghost view = { λ g. events_left g.replicas g.left g.state };
}

impl Generator {
    /// The schedule of so many lines for the replicas from 1 to the given one.
    pub fn new(
        alloc: Global,
        seed: u64,
        replicas: ReplicaId,
        lines: u64,
    ) -> Result<Generator, NoMemory>
        ensures { IfOk result (λ generator. generator ≡ generated seed replicas lines) }
    {
        let state = GeneratorState::new(alloc, seed, all_up_to(replicas))?;
        Ok(Generator {
            replicas,
            left: lines,
            state,
        })
    }

    /// The next event. Where memory is refused nothing changes.
    pub fn next(&mut self, alloc: Global) -> Result<Option<Event>, NoMemory>
        ensures ok { IfOk result (λ next. MatchOption next ((self.old ≡ [])
            × (self.new ≡ [])) (λ event. self.old ≡ event ∷ self.new)) }
        ensures err { OnErr result (self.new ≡ self.old) }
    {
        if self.left == 0 {
            return Ok(None);
        }
        let left = self.left - 1;
        if left == 0 {
            self.left = left;
            return Ok(Some(Event::End));
        }
        let event = self.state.next(alloc, self.replicas, left)?;
        self.left = left;
        Ok(Some(event))
    }
}

// the replicas from 1 to the given one
fn all_up_to(last: ReplicaId) -> IdSet
    ensures { result ≡ count_up 1 last }
{
    let mut set = IdSet::empty();
    for n in 0..last.get() {
        set.add(ReplicaId::known(n + 1));
    }
    set
}
