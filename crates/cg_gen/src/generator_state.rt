ghost use Rattle.std.specs.Prelude.{◌≡◌, [], IfOk, OnErr};
ghost use Rattle.cg_schedule.specs.declared.event.Event.TheVariants.{Stop};
ghost use Rattle.cg_gen.specs.Generated.{parting, joining, regrouping, restarting, block, begun, next_line, at_the_start};

use crate::block_lines::{BlockLines, next_waiting};
use crate::cells::Cells;
use crate::client::ask;
use crate::draws::Draws;
use crate::halves::halve;
use cg_base::{Bytes, IdSet, NoMemory, ReplicaId};
use cg_schedule::Event;
use std::alloc::Global;
use std::marker::Model;

/// What the lines that are left hang on.
#[derive(Drop)]
pub(crate) struct GeneratorState {
    draws: Draws,
    cells: Cells,
    waiting: BlockLines,
}

impl Model for GeneratorState {
    ghost use Rattle.cg_gen.specs.Generated.{GeneratorState};
    ghost use Rattle.cg_gen.specs.Waiting.{waiting_lines};

    ghost Value = { GeneratorState };

    ghost view = { λ p. record { number = p.draws; cells = p.cells; waiting = waiting_lines p.waiting } };
}

impl GeneratorState {
    pub(crate) fn new(alloc: Global, seed: u64, all: IdSet) -> Result<GeneratorState, NoMemory>
        ensures { IfOk result (λ state. state ≡ at_the_start seed all) }
    {
        let cells = Cells::one(alloc, all)?;
        Ok(GeneratorState {
            draws: Draws::new(seed),
            cells,
            waiting: BlockLines::Start(all),
        })
    }

    /// The next line, where so many are left before the end.
    pub(crate) fn next(
        &mut self,
        alloc: Global,
        replicas: ReplicaId,
        left: u64,
    ) -> Result<Event, NoMemory>
        ensures ok { IfOk result (λ event. next_line replicas left self.old ≡ (event, self.new)) }
        ensures err { OnErr result (self.new ≡ self.old) }
    {
        match next_waiting(&mut self.waiting) {
            Some(event) => Ok(event),
            None => self.begin(alloc, replicas, left),
        }
    }

    // the first line of a block
    #[tactic(auto, unfolding(crate::specs::Generated::block))]
    fn begin(&mut self, alloc: Global, replicas: ReplicaId, left: u64) -> Result<Event, NoMemory>
        requires { self.old.waiting ≡ [] }
        ensures ok { IfOk
            result (λ event. begun (block replicas left self.old.cells self.old.number) ≡ (event, self.new)) }
        ensures err { OnErr result (self.new ≡ self.old) }
    {
        let mut draws = self.draws;
        let kind = draws.draw(10);
        if kind < 8 {
            let event = ask(alloc, &mut draws, replicas, kind)?;
            self.draws = draws;
            return Ok(event);
        }
        if left < 4 {
            self.draws = draws;
            return Ok(Event::Gather);
        }
        if kind == 8 {
            self.regroup(draws)
        } else {
            self.restart(alloc, draws, replicas)
        }
    }

    // a cell is parted, or two are joined
    #[tactic(auto, unfolding(crate::specs::Generated::regrouping))]
    fn regroup(&mut self, draws: Draws) -> Result<Event, NoMemory>
        ensures ok { IfOk result (λ event. begun (regrouping self.old.cells draws) ≡ (event, self.new)) }
        ensures err { OnErr result (self.new ≡ self.old) }
    {
        self.cells.holds();
        let count = self.cells.count();
        if count == 1 {
            return self.part(draws, 0);
        }
        let mut draws = draws;
        if draws.draw(3) == 0 {
            let i = draws.draw(count as u64);
            self.part(draws, i as usize)
        } else {
            self.join(draws)
        }
    }

    #[tactic(auto, unfolding(crate::specs::Generated::parting))]
    fn part(&mut self, draws: Draws, i: usize) -> Result<Event, NoMemory>
        ensures ok { IfOk result (λ event. begun (parting self.old.cells i draws) ≡ (event, self.new)) }
        ensures err { OnErr result (self.new ≡ self.old) }
    {
        let mut draws = draws;
        let cell = self.cells.at(i);
        let halves = halve(&mut draws, cell);
        if halves.first.is_empty() || halves.second.is_empty() {
            self.draws = draws;
            self.waiting = BlockLines::Merge(cell);
            return Ok(Event::Split(cell));
        }
        self.cells.put_both(halves.first, halves.second)?;
        self.draws = draws;
        self.waiting = BlockLines::SplitThenBoth(halves.first, halves.second);
        Ok(Event::Split(halves.first))
    }

    #[tactic(auto, unfolding(crate::specs::Generated::joining))]
    fn join(&mut self, draws: Draws) -> Result<Event, NoMemory>
        ensures ok { IfOk result (λ event. begun (joining self.old.cells draws) ≡ (event, self.new)) }
        ensures err { OnErr result (self.new ≡ self.old) }
    {
        let mut draws = draws;
        self.cells.holds();
        let count = self.cells.count();
        let i = draws.draw(count as u64) as usize;
        let one = self.cells.at(i);
        let other = self.cells.at((i + 1) % count);
        let all = one.union(&other);
        self.cells.put(all)?;
        self.draws = draws;
        self.waiting = BlockLines::SplitThenMerge(other, all);
        Ok(Event::Split(one))
    }

    // a replica crashes and comes back
    #[tactic(auto, unfolding(crate::specs::Generated::restarting))]
    fn restart(
        &mut self,
        alloc: Global,
        draws: Draws,
        replicas: ReplicaId,
    ) -> Result<Event, NoMemory>
        ensures ok { IfOk result (λ event. begun (restarting replicas self.old.cells draws) ≡ (event, self.new)) }
        ensures err { OnErr result (self.new ≡ self.old) }
    {
        let mut draws = draws;
        let p = draws.replica(replicas);
        let mut others = self.cells.of(p);
        others.remove(p);
        self.cells.put_both(others, IdSet::single(p))?;
        self.draws = draws;
        self.waiting = BlockLines::Recover(p);
        Ok(stop(alloc, p))
    }
}

// a crash at once, which leaves nothing of bytes that were not synced
fn stop(alloc: Global, p: ReplicaId) -> Event
    ensures { result ≡ Stop p 0 [] }
{
    Event::Stop {
        p,
        call: 0,
        fill: Bytes::new(alloc),
    }
}
