//! The replicas that have begun.
ghost use Rattle.std.specs.Prelude.{◌≡◌, ◌==◌, nat_lt, [], Some, None, find, position, IfOk, OnOk, MatchOption};
ghost use Rattle.std.specs.Option.{option_copied};
ghost use Rattle.std.specs.List.{prefix_len};
ghost use Rattle.cg_base.specs.Sets.{IsId};
ghost use Rattle.cg_model.specs.World.{with_node};
ghost use Rattle.cg_model.specs.Step.{crashed};
ghost use Rattle.cg_world_events.specs.Nodes.{changed};
ghost use Rattle.cg_world_events.specs.Hosting.{ups, with_up};
ghost use Rattle.cg_model.specs.World.{Node as NodeView};

use crate::Node;
use cg_base::{IdSet, NoMemory, ReplicaId};
use std::alloc::Global;
use std::marker::Model;

// A node in a place of its own, and whose it is: nodes come and go with each event, from call to call, those behind one that
// goes move up, and they are looked through by their replicas. Clauses see the node.
#[derive(Drop)]
pub(crate) struct BoxedNode {
    id: ReplicaId,
    node: Box<Node>,
}

impl Model for BoxedNode {
    ghost use Rattle.std.specs.Prelude.{◌≡◌};
    ghost use Rattle.cg_model.specs.World.{Node};

    ghost Value = { Node };

    ghost view = { λ b. b.node.value };

    ghost invariant = { λ b. b.id ≡ b.node.value.id };
}

impl BoxedNode {
    pub(crate) fn new(alloc: Global, node: Node) -> Result<BoxedNode, NoMemory>
        ensures { IfOk result (λ b. b ≡ node) }
    {
        let id = node.id();
        let node = Box::new(alloc, node)?;
        Ok(BoxedNode { id, node })
    }

    pub(crate) fn id(&self) -> ReplicaId
        ensures { result ≡ self.now.id }
    {
        self.id
    }

    pub(crate) fn get(&self) -> &Node
        ensures { result.now ≡ self.now }
    {
        &self.node
    }

    pub(crate) fn into_inner(self) -> Node
        ensures { result ≡ self }
    {
        let BoxedNode { node, .. } = self;
        Box::into_inner(node)
    }

    /// `crash` of the node.
    pub(crate) fn crash(self, alloc: Global) -> Result<BoxedNode, NoMemory>
        ensures { IfOk result (λ b. b ≡ changed self (crashed self.life)) }
    {
        let node = self.into_inner().crash()?;
        BoxedNode::new(alloc, node)
    }
}

/// The replicas that have begun, ascending.
pub(crate) struct Nodes {
    list: Vec<BoxedNode>,
}

impl Drop for Nodes {
    fn drop(self) {
        let Nodes { list: _ } = self;
    }
}

impl Model for Nodes {
    ghost use Rattle.std.specs.Prelude.{List};
    ghost use Rattle.cg_model.specs.World.{Node};
    ghost use Rattle.cg_world_events.specs.Hosting.{AscendingNodes};

    ghost Value = { List Node };

    ghost view = { λ s. s.list.items };

    ghost invariant = { λ s. AscendingNodes s.list.items };
}

// The replica's node.
fn node_of(nodes: &[BoxedNode], p: ReplicaId) -> Option<&BoxedNode>
    ensures { option_copied result ≡ find (λ s. s.id == p) nodes.now }
{
    nodes.iter().find(|s| s.id() == p)
}

// Where the replica's node stands, from 0.
fn index_of(nodes: &[BoxedNode], p: ReplicaId) -> Option<usize>
    ensures { result ≡ position (λ s. s.id == p) nodes.now }
{
    nodes.iter().position(|s| s.id() == p)
}

// Where the node of a replica that hasn't begun belongs, from 0.
fn index_for(nodes: &[BoxedNode], p: ReplicaId) -> usize
    ensures index { result ≡ prefix_len (λ s. nat_lt s.id p) nodes.now }
    ensures range { IsId p }
{
    let number = p.get();
    nodes.iter().take_while(|s| s.id().get() < number).count()
}

// The set, with a replica that is up.
fn with_up(set: IdSet, node: &Node) -> IdSet
    ensures { result ≡ with_up set node.now }
{
    let mut more = set;
    if node.is_up() {
        more.add(node.id());
    }
    more
}

impl Nodes {
    /// Nobody has begun.
    pub(crate) fn new(alloc: Global) -> Nodes
        ensures { result ≡ [] }
    {
        Nodes {
            list: Vec::new(alloc),
        }
    }

    pub(crate) fn alloc(&self) -> Global {
        *self.list.allocator()
    }

    // Their nodes, ascending by identifier.
    pub(crate) fn as_slice(&self) -> &[BoxedNode]
        ensures { result.now ≡ self.now }
    {
        self.list.as_slice()
    }

    /// The replica's node, where it has begun. It takes no memory.
    pub(crate) fn find(&self, p: ReplicaId) -> Option<&Node>
        ensures { option_copied result ≡ find (λ s. s.id == p) self.now }
    {
        match node_of(self.list.as_slice(), p) {
            Some(node) => Some(node.get()),
            None => None,
        }
    }

    /// The replicas that are up. It takes no memory.
    pub(crate) fn up_replicas(&self) -> IdSet
        ensures { result ≡ ups self.now }
    {
        let mut up = IdSet::empty();
        for node in self.list.as_slice() {
            up = with_up(up, node.get());
        }
        up
    }

    /// The node comes in the place of the replica's earlier one, or is a new one.
    pub(crate) fn put(&mut self, node: Node) -> Result<(), NoMemory>
        ensures { OnOk result (self.new ≡ with_node self.old node) }
    {
        let node = BoxedNode::new(self.alloc(), node)?;
        self.put_boxed(node)
    }

    /// The same of a node that has its place.
    pub(crate) fn put_boxed(&mut self, node: BoxedNode) -> Result<(), NoMemory>
        ensures { OnOk result (self.new ≡ with_node self.old node) }
    {
        self.clear(node.id());
        self.add(node)
    }

    /// The replica's node is taken out, where it has begun: then there is none. It takes no memory.
    pub(crate) fn take(&mut self, p: ReplicaId) -> Option<Node>
        ensures taken { MatchOption result
            ((find (λ s. s.id == p) self.old ≡ None) × (self.new ≡ self.old))
            (λ s. (find (λ t. t.id == p) self.old ≡ Some s)
            × ((t : NodeView) → t.id ≡ p → with_node self.new t ≡ with_node self.old t)) }
        ensures away { find (λ s. s.id == p) self.new ≡ None }
    {
        match self.take_boxed(p) {
            Some(node) => Some(node.into_inner()),
            None => None,
        }
    }

    /// The same of a node that keeps its place.
    pub(crate) fn take_boxed(&mut self, p: ReplicaId) -> Option<BoxedNode>
        ensures taken { MatchOption result
            ((find (λ s. s.id == p) self.old ≡ None) × (self.new ≡ self.old))
            (λ s. (find (λ t. t.id == p) self.old ≡ Some s)
            × ((t : NodeView) → t.id ≡ p → with_node self.new t ≡ with_node self.old t)) }
        ensures away { find (λ s. s.id == p) self.new ≡ None }
    {
        match index_of(self.list.as_slice(), p) {
            Some(index) => Some(self.list.remove(index)),
            None => None,
        }
    }

    // The replica has no node any more.
    fn clear(&mut self, p: ReplicaId)
        ensures put { (t : NodeView) → t.id ≡ p → with_node self.new t ≡ with_node self.old t }
        ensures away { find (λ s. s.id == p) self.new ≡ None }
    {
        match self.take_boxed(p) {
            Some(node) => drop(node),
            None => {}
        }
    }

    // A node of a replica that has none.
    fn add(&mut self, node: BoxedNode) -> Result<(), NoMemory>
        requires { find (λ s. s.id == node.id) self.old ≡ None }
        ensures { OnOk result (self.new ≡ with_node self.old node) }
    {
        let index = index_for(self.list.as_slice(), node.id());
        self.list.insert(index, node)?;
        Ok(())
    }
}
