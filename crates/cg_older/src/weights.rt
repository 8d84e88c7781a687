//! Weights above 1.

ghost use Rattle.std.specs.Prelude.{◌≡◌, ◌<◌, ◌≤◌, ◌++◌, ℕ, length, slice_get, true, false};
ghost use Rattle.std.specs.List.{list_any};
ghost use Rattle.std.specs.Option.{option_copied, option_map_or};
ghost use Rattle.cg_base.specs.Cuts.{index_in};
ghost use Rattle.cg_base.specs.declared.action_id.ActionId.{ActionId};
ghost use Rattle.cg_queue.specs.Shown.{IsBetween};
ghost use Rattle.cg_older.specs.Older.{has_weights};
ghost use Rattle.cg_older.specs.Weights.{is_heavy_member, is_heavy_server, is_heavy_join, is_heavy_name};

use crate::lists::is_heavy_join;
use cg_action::Action;
use cg_base::{ActionId, ReplicaId, WeightSet};
use cg_client::Core;
use cg_members::ServerSet;

/// Whether a weight above 1 stands in what a replica holds: in its last primary component, among its servers, or in a
/// join among the actions that it keeps.
#[tactic(auto, unfolding(crate::specs::Older::has_weights))]
pub fn has_weights(core: &Core) -> bool
    ensures { result ≡ has_weights core.now }
{
    let prim = core.prim();
    has_heavy_member(&prim.set)
        || has_heavy_server(core.members().servers())
        || has_heavy_kept(core)
}

#[tactic(auto, using(crate::proofs::Heavy::heavy_behind))]
fn has_heavy_kept(core: &Core) -> bool
    ensures { result ≡ list_any is_heavy_join (core.now.queue.greens ++ core.now.queue.reds ++ core.now.own) }
{
    has_heavy_known(core) || has_heavy_own(core)
}

fn has_heavy_known(core: &Core) -> bool
    ensures { result ≡ list_any is_heavy_join (core.now.queue.greens ++ core.now.queue.reds) }
{
    core.queue().holds();
    has_heavy_green(core) || has_heavy_red(core)
}

fn has_heavy_member(set: &WeightSet) -> bool
    ensures { result ≡ list_any is_heavy_member set.now }
{
    for member in set.iter() {
        if member.weight > 1 {
            return true;
        }
    }
    false
}

fn has_heavy_server(servers: &ServerSet) -> bool
    ensures { result ≡ list_any is_heavy_server servers.now }
{
    for server in servers.iter() {
        if server.weight > 1 {
            return true;
        }
    }
    false
}

fn has_heavy_green(core: &Core) -> bool
    ensures { result ≡ list_any is_heavy_join core.now.queue.greens }
{
    let count = core.green_count() - core.white_count();
    for i in 0..count {
        if is_heavy_at(green_at(core, i)) {
            return true;
        }
    }
    false
}

fn green_at(core: &Core, i: u64) -> Option<&Action>
    requires { i < length core.now.queue.greens }
    ensures { option_copied result ≡ slice_get core.now.queue.greens i }
{
    core.holds();
    core.green_at(core.white_count() + 1 + i)
}

// The reds are found by their names: nothing says that a `usize` counts them.
fn has_heavy_red(core: &Core) -> bool
    ensures found { result ≡ true → list_any is_heavy_join (core.now.queue.greens ++ core.now.queue.reds) ≡ true }
    ensures none { result ≡ false → (id : ActionId) → IsBetween core.now.queue.green_cut core.now.queue.red_cut id →
        is_heavy_name core.now.queue id ≡ false }
{
    for slot in 0..32 {
        if has_heavy_of(core, ReplicaId::known(slot + 1)) {
            return true;
        }
    }
    false
}

fn has_heavy_of(core: &Core, creator: ReplicaId) -> bool
    ensures found { result ≡ true → list_any is_heavy_join (core.now.queue.greens ++ core.now.queue.reds) ≡ true }
    ensures none { result ≡ false → (i : ℕ) → index_in core.now.queue.green_cut creator < i →
        i ≤ index_in core.now.queue.red_cut creator →
        is_heavy_name core.now.queue (record { creator = creator; index = i }) ≡ false }
{
    for last in core.green_index(creator)..core.red_index(creator) {
        let id = ActionId {
            creator,
            index: last + 1,
        };
        if is_heavy_at(core.get(id)) {
            return true;
        }
    }
    false
}

fn has_heavy_own(core: &Core) -> bool
    ensures { result ≡ list_any is_heavy_join core.now.own }
{
    for i in 0..core.own_count() {
        if is_heavy_at(core.own_at(i)) {
            return true;
        }
    }
    false
}

fn is_heavy_at(action: Option<&Action>) -> bool
    ensures { result ≡ option_map_or is_heavy_join (option_copied action.entry) false }
{
    match action {
        Some(action) => is_heavy_join(action),
        None => false,
    }
}
