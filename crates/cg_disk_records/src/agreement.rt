//! Whether the parts of a checkpoint agree.

ghost use Rattle.std.specs.Prelude.{◌≡◌, ◌+◌, ◌==◌, nat_eq, nat_le, length, fold, sum_by};
ghost use Rattle.std.specs.List.{list_all};
ghost use Rattle.std.specs.Cmp.Lexicographic.{pointwise};
ghost use Rattle.cg_base.specs.Cuts.{index_in, raise};
ghost use Rattle.cg_base.specs.Lists.{above_up_to};
ghost use Rattle.cg_base.specs.Replicas.{every_replica};
ghost use Rattle.cg_client.specs.Replica.{last_index};
ghost use Rattle.cg_disk_records.specs.Parts.{next_index, red_cut_of, queue_in, greens_agree, is_before_first, is_between, yellow_agrees, are_own_between, greens_count, reds_count, names_agree, do_agree};
ghost use Rattle.cg_disk_records.specs.Agreeing.{indexes_of, count_to, counts_up, is_by_name, is_present};

use crate::Checkpoint;
use cg_action::Action;
use cg_base::{ActionId, Cut, IdSet, ReplicaId};
use cg_members::ServerSet;
use cg_queue::is_distinct;

impl Checkpoint {
    /// The parts are those of a checkpoint of this replica.
    #[tactic(auto, unfolding(crate::specs::Parts::do_agree))]
    pub fn agrees(&self, id: ReplicaId) -> bool
        ensures { result ≡ do_agree id self.now }
    {
        let red_cut = self.red_cut();
        self.greens_agree() && self.creators_agree(&red_cut) && self.names_agree(id, &red_cut)
    }

    /// How far actions are known: the green cut, and the reds behind it.
    pub fn red_cut(&self) -> Cut
        ensures { result ≡ red_cut_of self.now }
    {
        raised(self.reached.cut, self.kept.reds.as_slice())
    }

    fn greens_agree(&self) -> bool
        ensures { result ≡ greens_agree self.now }
    {
        let r = &self.reached;
        let kept = self.kept.greens.len() as u64;
        is_sum(r.count, r.white, kept)
            && counts(&r.cut, r.count)
            && are_present(r.members.servers(), r.members.left(), r.count)
    }

    fn creators_agree(&self, red_cut: &Cut) -> bool
        requires { red_cut.now ≡ red_cut_of self.now }
        ensures { result ≡ list_all (counts_up (queue_in self.now)) every_replica }
    {
        greens_count(self.kept.greens.as_slice(), &self.reached.cut)
            && reds_count(self.kept.reds.as_slice(), self.reached.cut, red_cut)
    }

    fn names_agree(&self, id: ReplicaId, red_cut: &Cut) -> bool
        requires { red_cut.now ≡ red_cut_of self.now }
        ensures { result ≡ names_agree id self.now }
    {
        let own = self.kept.own.as_slice();
        let created = red_cut.get(id).max(last_index(own));
        self.stable.created == created
            && is_by_name(self.kept.reds.as_slice())
            && self.yellow_agrees(red_cut)
            && are_own(own, id, red_cut.get(id), created)
    }

    fn yellow_agrees(&self, red_cut: &Cut) -> bool
        requires { red_cut.now ≡ red_cut_of self.now }
        ensures { result ≡ yellow_agrees self.now }
    {
        let list = self.stable.yellow.list.as_slice();
        is_distinct(list) && are_between(list, &self.reached.cut, red_cut)
    }
}

// each creator's greens count up to its index
fn greens_count(greens: &[Action], cut: &Cut) -> bool
    ensures { result ≡ list_all (greens_count greens.now cut.now) every_replica }
{
    for slot in 0..32 {
        let id = ReplicaId::known(slot + 1);
        if !count_to(greens, id, cut.get(id)) {
            return false;
        }
    }
    true
}

// each creator's reds count up from its index in the first cut to that in the second; all in one pass, for there may be many
fn reds_count(reds: &[Action], from: Cut, to: &Cut) -> bool
    ensures { result ≡ list_all (reds_count reds.now from to.now) every_replica }
{
    let mut at = from;
    for a in reds {
        let ActionId { creator, index } = a.id;
        creator.holds();
        at.holds();
        let last = at.get(creator);
        if last >= to.get(creator) || index != last + 1 {
            return false;
        }
        at.raise(creator, index);
    }
    reaches(&at, to)
}

// no creator's index is greater in the second cut
fn reaches(at: &Cut, to: &Cut) -> bool
    ensures { result ≡ list_all (λ p. nat_le (index_in to.now p) (index_in at.now p)) every_replica }
{
    for slot in 0..32 {
        let id = ReplicaId::known(slot + 1);
        if at.get(id) < to.get(id) {
            return false;
        }
    }
    true
}

fn raised(cut: Cut, actions: &[Action]) -> Cut
    ensures { result ≡ fold (λ c a. raise c a.id) cut actions.now }
{
    let mut all = cut;
    for a in actions {
        all.raise(a.id.creator, a.id.index);
    }
    all
}

fn is_sum(whole: u64, one: u64, other: u64) -> bool
    ensures { result ≡ (whole == one + other) }
{
    whole >= one && whole - one == other
}

// the indexes of the cut add up to the count
fn counts(cut: &Cut, count: u64) -> bool
    ensures { result ≡ (sum_by (λ top. top.index) cut.now == count) }
{
    let mut left = count;
    for top in cut.iter() {
        if top.index > left {
            return false;
        }
        left -= top.index;
    }
    left == 0
}

fn are_present(servers: &ServerSet, left: IdSet, count: u64) -> bool
    ensures { result ≡ list_all (is_present count left) servers.now }
{
    for server in servers.iter() {
        if server.line > count || left.contains(server.id) {
            return false;
        }
    }
    true
}

/// How many of the actions are the creator's.
pub fn count_of(actions: &[Action], id: ReplicaId) -> u64
    ensures { result ≡ length (indexes_of actions.now id) }
{
    let mut count = 0;
    for a in actions {
        if a.id.creator == id {
            count += 1;
        }
    }
    count
}

// the indexes of the creator's actions are those above the first number and up to the second
fn count_between(actions: &[Action], id: ReplicaId, low: u64, high: u64) -> bool
    ensures { result ≡ pointwise nat_eq (indexes_of actions.now id) (above_up_to low high) }
{
    let mut at = low;
    for a in actions {
        let Some(next) = next_index(a, id, at, high) else {
            return false;
        };
        at = next;
    }
    at >= high
}

fn next_index(a: &Action, id: ReplicaId, at: u64, high: u64) -> Option<u64>
    ensures { result ≡ next_index a.now id at high }
{
    if a.id.creator != id {
        return Some(at);
    }
    if at >= high || a.id.index != at + 1 {
        return None;
    }
    Some(at + 1)
}

fn count_to(actions: &[Action], id: ReplicaId, last: u64) -> bool
    ensures { result ≡ count_to last (indexes_of actions.now id) }
{
    count_between(
        actions,
        id,
        last.saturating_sub(count_of(actions, id)),
        last,
    )
}

fn last_index(actions: &[Action]) -> u64
    ensures { result ≡ last_index actions.now }
{
    match actions.get(actions.len().saturating_sub(1)) {
        Some(a) => a.id.index,
        None => 0,
    }
}

fn is_by_name(actions: &[Action]) -> bool
    ensures { result ≡ is_by_name actions.now }
{
    let mut rest = actions;
    while let Some((first, others)) = rest.split_first() {
        if !is_before_first(&first.id, others) {
            return false;
        }
        rest = others;
    }
    true
}

fn is_before_first(id: &ActionId, actions: &[Action]) -> bool
    ensures { result ≡ is_before_first id.now actions.now }
{
    match actions.first() {
        Some(a) => id.is_before(&a.id),
        None => true,
    }
}

// each of the names is behind the first cut and not behind the second
fn are_between(ids: &[ActionId], low: &Cut, high: &Cut) -> bool
    ensures { result ≡ list_all (is_between low.now high.now) ids.now }
{
    for id in ids {
        if low.get(id.creator) >= id.index || id.index > high.get(id.creator) {
            return false;
        }
    }
    true
}

fn are_own(own: &[Action], id: ReplicaId, low: u64, high: u64) -> bool
    ensures { result ≡ are_own_between id own.now low high }
{
    are_of(own, id) && count_between(own, id, low, high)
}

fn are_of(actions: &[Action], id: ReplicaId) -> bool
    ensures { result ≡ list_all (λ a. a.id.creator == id) actions.now }
{
    for a in actions {
        if a.id.creator != id {
            return false;
        }
    }
    true
}
