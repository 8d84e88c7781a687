//! The world that events change.
ghost use Rattle.std.specs.Prelude.{◌≡◌, ◌∷◌, [], true, false, Some, None, is_some, option_map, IfOk, OnOk, IfSome, MatchOption};
ghost use Rattle.std.specs.Option.{option_copied, option_map_or};
ghost use Rattle.cg_base.specs.Sets.{has};
ghost use Rattle.cg_members.specs.Servers.{is_server};
ghost use Rattle.cg_disk_records.specs.Holds.{Holds};
ghost use Rattle.cg_group.specs.Ready.{ready};
ghost use Rattle.cg_group.specs.State.{is_up};
ghost use Rattle.cg_group.specs.Events.{come_up, send_all};
ghost use Rattle.cg_base.specs.Lists.{first_some};
ghost use Rattle.cg_group.specs.Refusals.{not_up};
ghost use Rattle.cg_older.specs.Older.{has_weights};
ghost use Rattle.cg_model.specs.Admission.{takes_part, unknown};
ghost use Rattle.cg_model.specs.Places.{creates};
ghost use Rattle.cg_model.specs.World.{NodeState, no_world, running, node_of, disk_at, set_life, bring_down, has_begun, replica_of, is_left, left_replicas, up_replicas};
ghost use Rattle.cg_model.specs.Show.{line_of};
ghost use Rattle.cg_model.specs.Touched.{new_lines_of};
ghost use Rattle.cg_world_events.specs.StepInProgress.{with_news};
ghost use Rattle.cg_world_events.specs.DiskOut.{GivesDisk};
ghost use Rattle.cg_world_events.specs.Hosting.{with_left};

use crate::admission::{hidden, takes_part, unknown};
use crate::made::MadeCut;
use crate::nodes::{BoxedNode, Nodes};
use crate::snapshot_counts::SnapshotCounts;
use crate::transfers::Transfers;
use crate::{Lines, Node};
use cg_base::{IdList, IdSet, NoMemory, ReplicaId, Row};
use cg_client::Core;
use cg_disk::{Disk, ModelDisk};
use cg_encoded::EncodedMsg;
use cg_group::{Group, Reason};
use cg_report::Line;
use std::alloc::Global;
use std::marker::Model;

/// The group; the replicas that have begun; the snapshots under way, and how many each replica has given, which clauses
/// don't see; the global order of actions; the last printed line of each replica; the cut of the actions that were shown
/// as made; and the replicas that were named.
pub struct WorldState {
    pub(crate) group: Group<EncodedMsg>,
    pub(crate) nodes: Nodes,
    pub(crate) transfers: Transfers,
    pub(crate) given: SnapshotCounts,
    pub(crate) order: IdList,
    pub(crate) lines: Lines,
    pub(crate) made: MadeCut,
    pub(crate) named: IdSet,
}

impl Drop for WorldState {
    fn drop(self) {
        let WorldState {
            group: _,
            nodes: _,
            transfers: _,
            given: _,
            order: _,
            lines: _,
            made: _,
            named: _,
        } = self;
    }
}

impl Model for WorldState {
    ghost use Rattle.cg_model.specs.World.{World};

    ghost Value = { World };

    ghost view = { λ w. record {
      group = w.group;
      nodes = w.nodes;
      snapshots = w.transfers;
      order = w.order;
      lines = w.lines;
      made = w.made;
      named = w.named;
    } };
}

impl WorldState {
    /// The world before its start.
    pub fn new(alloc: Global) -> WorldState
        ensures { result ≡ no_world }
    {
        WorldState {
            group: Group::new(alloc),
            nodes: Nodes::new(alloc),
            transfers: Transfers::new(alloc),
            given: SnapshotCounts::none(),
            order: IdList::new(alloc),
            lines: Lines::new(alloc),
            made: MadeCut::zero(),
            named: IdSet::empty(),
        }
    }

    pub(crate) fn alloc(&self) -> Global {
        self.nodes.alloc()
    }

    /// The replica has begun. It takes no memory.
    pub(crate) fn has_begun(&self, p: ReplicaId) -> bool
        ensures { result ≡ has_begun self.now p }
    {
        self.nodes.find(p).is_some()
    }

    /// The replica is up. It takes no memory.
    pub fn is_up(&self, p: ReplicaId) -> bool
        ensures { result ≡ is_some (replica_of self.now p) }
    {
        match self.nodes.find(p) {
            Some(node) => node.is_up(),
            None => false,
        }
    }

    /// A weight above 1 stands on the replica's disk, where it is down.
    pub(crate) fn has_weights(&self, p: ReplicaId) -> Result<bool, NoMemory>
        requires { is_some (replica_of self.now p) ≡ false }
        ensures { IfOk result (λ b. b ≡ option_map_or (λ d. has_weights d.content) (disk_at self.now p) false) }
    {
        match self.nodes.find(p) {
            Some(node) => node.has_weights(),
            None => Ok(false),
        }
    }

    /// The replica is up, and has left for good. It takes no memory.
    pub(crate) fn is_left(&self, p: ReplicaId) -> bool
        ensures { result ≡ is_left self.now p }
    {
        match self.nodes.find(p) {
            Some(node) => node.is_left(),
            None => false,
        }
    }

    /// The replica is up, and knows that the server has left. It takes no memory.
    pub(crate) fn knows_left(&self, p: ReplicaId, q: ReplicaId) -> bool
        ensures { result ≡ option_map_or (λ r. has r.held.members.left q) (replica_of self.now p) false }
    {
        match self.nodes.find(p) {
            Some(node) => node.knows_left(q),
            None => false,
        }
    }

    /// The replica is up, and knows the server. It takes no memory.
    pub(crate) fn knows_server(&self, p: ReplicaId, q: ReplicaId) -> bool
        ensures { result ≡ option_map_or (λ r. is_server r.held.members q) (replica_of self.now p) false }
    {
        match self.nodes.find(p) {
            Some(node) => node.knows_server(q),
            None => false,
        }
    }

    /// The replica is up, and creates a request at once. It takes no memory.
    pub fn creates(&self, p: ReplicaId) -> bool
        ensures { result ≡ creates self.now p }
    {
        match self.nodes.find(p) {
            Some(node) => node.is_creating(),
            None => false,
        }
    }

    /// Why the replica can't take part in an event as itself: it hasn't begun, isn't up, or has left for good. It takes
    /// no memory.
    pub fn takes_part(&self, p: ReplicaId) -> Option<Reason>
        ensures { result ≡ takes_part self.now p }
    {
        takes_part(self, p)
    }

    /// Why nothing can be asked of the replica at all: it hasn't begun. It takes no memory.
    pub fn unknown(&self, p: ReplicaId) -> Option<Reason>
        ensures { result ≡ unknown self.now p }
    {
        unknown(self, p)
    }

    /// Why nothing is seen of the replica: it hasn't begun, or isn't up. It takes no memory.
    pub fn hidden(&self, p: ReplicaId) -> Option<Reason>
        ensures { result ≡ first_some (unknown self.now p ∷ not_up self.now.group p ∷ []) }
    {
        hidden(self, p)
    }

    /// The global order. It takes no memory.
    pub fn order(&self) -> &IdList
        ensures { result.now ≡ self.now.order }
    {
        &self.order
    }

    /// What the replica holds, where it is up, and the facts that stand of whatever a replica holds. It takes no memory.
    pub fn core(&self, p: ReplicaId) -> Option<&Core>
        ensures value { option_copied result ≡ option_map (λ r. r.held) (replica_of self.now p) }
        ensures holds { IfSome (option_copied result) Holds }
    {
        match self.nodes.find(p) {
            Some(node) => node.core(),
            None => None,
        }
    }

    /// The replicas that are up. It takes no memory.
    pub fn up_replicas(&self) -> IdSet
        ensures { result ≡ up_replicas self.now }
    {
        self.nodes.up_replicas()
    }

    /// The replicas that are up and have left for good. It takes no memory.
    pub(crate) fn left_replicas(&self) -> IdSet
        ensures { result ≡ left_replicas self.now }
    {
        let up = self.up_replicas();
        up.holds();
        let mut left = IdSet::empty();
        for p in up.iter() {
            left = self.with_left(left, p);
        }
        left
    }

    // The set, with a replica that has left.
    fn with_left(&self, set: IdSet, p: ReplicaId) -> IdSet
        ensures { result ≡ with_left self.now set p }
    {
        let mut more = set;
        if self.is_left(p) {
            more.add(p);
        }
        more
    }

    /// How many places in a row may be delivered to the replica next. It takes no memory.
    pub fn ready(&self, p: ReplicaId) -> u64
        ensures { result ≡ ready self.now.group p }
    {
        self.group.ready(p)
    }

    /// Start or an admitted join has named the replica. It takes no memory.
    pub(crate) fn names(&self, p: ReplicaId) -> bool
        ensures { result ≡ has self.now.named p }
    {
        self.named.contains(p)
    }

    /// The replica's disk as a crash now leaves it, with nothing in the places that weren't synced; None exactly where the
    /// replica hasn't begun. `NoMemory` too where a crash has it.
    pub fn into_disk(self, p: ReplicaId) -> Result<Option<ModelDisk>, NoMemory>
        ensures { IfOk result (GivesDisk (⟦<ModelDisk as Disk>⟧.view) self p) }
    {
        let mut world = self;
        let node = world.nodes.take(p);
        drop(world);
        match node {
            Some(node) => Ok(Some(node.into_disk()?)),
            None => Ok(None),
        }
    }

    // The node of a replica is taken out, where it has begun.
    pub(crate) fn take(&mut self, p: ReplicaId) -> Option<Node>
        ensures { MatchOption result
            ((node_of self.old p ≡ None) × (self.new ≡ self.old))
            (λ s. (node_of self.old p ≡ Some s)
            × ((life : NodeState) → set_life self.new p life ≡ set_life self.old p life)) }
    {
        self.nodes.take(p)
    }

    // The node of a replica that is up is taken out; any other stays.
    pub(crate) fn take_up(&mut self, p: ReplicaId) -> Option<BoxedNode>
        ensures { MatchOption result
            ((replica_of self.old p ≡ None) × (self.new ≡ self.old))
            (λ s. (node_of self.old p ≡ Some s) × (is_some (running s.life) ≡ true)
            × ((life : NodeState) → set_life self.new p life ≡ set_life self.old p life)) }
    {
        if self.is_up(p) {
            self.nodes.take_boxed(p)
        } else {
            None
        }
    }

    // The replica's node is this one.
    pub(crate) fn put(&mut self, node: BoxedNode) -> Result<(), NoMemory>
        ensures { OnOk result (self.new ≡ set_life self.old node.id node.life) }
    {
        self.nodes.put_boxed(node)
    }

    // The replica's node is this one, and it comes up in the group too, where it isn't up.
    pub(crate) fn put_up(&mut self, node: Node) -> Result<(), NoMemory>
        requires { is_up self.old.group node.id ≡ false }
        ensures { OnOk result (
            let up = set_life self.old node.id node.life in
            self.new ≡ record up { group = come_up up.group node.id }) }
    {
        let id = node.id();
        self.nodes.put(node)?;
        self.group.add(id)
    }

    // The replica's node is this one, of a replica that is down.
    pub(crate) fn put_down(&mut self, node: Node) -> Result<(), NoMemory>
        ensures { OnOk result (self.new ≡ set_life self.old node.id node.life) }
    {
        self.nodes.put(node)
    }

    // The node of a replica that went down stands; it leaves the group, and its snapshots end.
    pub(crate) fn take_down(&mut self, node: BoxedNode) -> Result<(), NoMemory>
        ensures { OnOk result (self.new ≡ bring_down self.old node.id node.life) }
    {
        let id = node.id();
        self.nodes.put_boxed(node)?;
        self.group.down(id);
        self.transfers.end_of(id);
        Ok(())
    }

    // A replica says these things to its group, one after another.
    pub(crate) fn say(&mut self, p: ReplicaId, sent: Row<EncodedMsg>) -> Result<(), NoMemory>
        ensures { OnOk result (self.new ≡ record self.old { group = send_all self.old.group p sent }) }
    {
        say_all(&mut self.group, p, sent)
    }

    // Of these replicas the lines that differ from the last printed ones, ascending by replica.
    pub(crate) fn new_lines_of(&self, set: &IdSet) -> Result<Row<Line>, NoMemory>
        ensures { IfOk result (λ lines. lines ≡ new_lines_of set.now self.now) }
    {
        let mut lines = Row::new(self.nodes.alloc());
        for node in self.nodes.as_slice() {
            if set.contains(node.id()) {
                self.add_line(&mut lines, node.get())?;
            }
        }
        Ok(lines)
    }

    // The replica's line too, where it is news.
    fn add_line(&self, lines: &mut Row<Line>, node: &Node) -> Result<(), NoMemory>
        ensures { OnOk result (lines.new ≡ with_news self.now.lines lines.old (line_of self.now.group node.now)) }
    {
        let line = node.line(self.group.phase(node.id()))?;
        add_news(&self.lines, lines, line)
    }
}

fn say_all(
    group: &mut Group<EncodedMsg>,
    p: ReplicaId,
    sent: Row<EncodedMsg>,
) -> Result<(), NoMemory>
    ensures { OnOk result (group.new ≡ send_all group.old p sent) }
{
    for encoded in sent.into_vec() {
        let _waits = group.send(p, encoded)?;
    }
    Ok(())
}

// The line too, where it is news.
fn add_news(old: &Lines, lines: &mut Row<Line>, line: Line) -> Result<(), NoMemory>
    ensures { OnOk result (lines.new ≡ with_news old.now lines.old line) }
{
    if old.is_news(&line) {
        return lines.push(line);
    }
    drop(line);
    Ok(())
}
