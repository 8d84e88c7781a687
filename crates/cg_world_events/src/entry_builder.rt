ghost use Rattle.std.specs.Prelude.{◌≡◌, ◌++◌, ◌∷◌, [], List, map, fold, length, suc, IfOk, OnOk};
ghost use Rattle.cg_base.specs.declared.action_id.ActionId.{ActionId as ActionName};
ghost use Rattle.cg_base.specs.Cuts.{raise};
ghost use Rattle.cg_queue.specs.Queue.{names_of};
ghost use Rattle.cg_model.specs.Show.{beyond, placed_from, tell};
ghost use Rattle.cg_model.specs.Making.{made_of_action};
ghost use Rattle.cg_world_events.specs.Showing.{nothing_shown, step_in};

use crate::answered::Replies;
use crate::made::MadeCut;
use crate::{EventEffects, WorldState};
use cg_action::{Action, ActionList};
use cg_base::{ActionId, Cut, IdList, NoMemory, Row};
use cg_report::{Entry, Line, Made, Placed, Shown};
use std::alloc::Global;
use std::marker::Model;

/// What a step shows so far, but for its lines.
pub struct EntryBuilder {
    made: Row<Made>,
    orders: Row<Placed>,
    replies: Replies,
    shown: Row<Shown>,
}

impl Drop for EntryBuilder {
    fn drop(self) {
        let EntryBuilder {
            made: _,
            orders: _,
            replies: _,
            shown: _,
        } = self;
    }
}

impl Model for EntryBuilder {
    ghost use Rattle.cg_world_events.specs.Showing.{Shows};

    ghost Value = { Shows };

    ghost view = { λ s. record { made = s.made; orders = s.orders; replies = s.replies; shown = s.shown } };
}

impl EntryBuilder {
    /// Nothing is shown yet.
    pub fn new(alloc: Global) -> EntryBuilder
        ensures { result ≡ nothing_shown }
    {
        EntryBuilder {
            made: Row::new(alloc),
            orders: Row::new(alloc),
            replies: Replies::new(alloc),
            shown: Row::new(alloc),
        }
    }

    /// What came of an event at a replica is shown too. The world's order grows by the names that it doesn't have yet, and the
    /// cut of what was shown as made by the actions that are.
    pub(crate) fn tell(
        &mut self,
        world: &mut WorldState,
        news: EventEffects,
    ) -> Result<(), NoMemory>
        ensures { OnOk result (step_in world.new self.new ≡ tell (step_in world.old self.old) news) }
    {
        let EventEffects {
            made: actions,
            green,
            count,
            replies,
        } = news;
        let green = green.as_slice();
        let before = count.saturating_sub(green.len() as u64);
        self.replies.answer(before, green, replies)?;
        let more = beyond(world.order.len(), green, count);
        place_all(&mut world.order, &mut self.orders, more)?;
        let mut made = world.made.take_out(world.nodes.alloc())?;
        show_made(&mut made, &mut self.made, actions)?;
        world.made = MadeCut::of(made);
        Ok(())
    }

    /// What an event asks for is shown.
    pub fn show(&mut self, shown: Shown) -> Result<(), NoMemory>
        ensures { OnOk result (self.new ≡ record self.old { shown = self.old.shown ++ shown ∷ [] }) }
    {
        self.shown.push(shown)
    }

    /// All that the step shows, with these lines.
    pub fn into_entry(self, lines: Row<Line>) -> Result<Entry, NoMemory>
        ensures { IfOk result (λ e. e ≡ record {
          made = self.made;
          orders = self.orders;
          lines = lines;
          replies = map (λ r. r.reply) self.replies;
          shown = self.shown;
        }) }
    {
        let EntryBuilder {
            made,
            orders,
            replies,
            shown,
        } = self;
        let replies = replies.into_replies()?;
        Ok(Entry {
            made,
            orders,
            lines,
            replies,
            shown,
        })
    }
}

// Of names up to a place of the order those that it doesn't have yet.
fn beyond(known: usize, green: &[ActionId], count: u64) -> &[ActionId]
    ensures { (order : List ActionName) → length order ≡ known → result.now ≡ beyond order green.now count }
{
    let known = known as u64;
    if count <= known {
        return &[];
    }
    let more = count - known;
    let len = green.len() as u64;
    if len <= more {
        return green;
    }
    &green[(len - more) as usize..]
}

// The names come into the order, each at the next place.
fn place_all(order: &mut IdList, orders: &mut Row<Placed>, ids: &[ActionId]) -> Result<(), NoMemory>
    ensures order { OnOk result (order.new ≡ order.old ++ ids.now) }
    ensures orders { OnOk result (orders.new ≡ orders.old ++ placed_from (length order.old) ids.now) }
{
    for id in ids {
        place_one(order, orders, id)?;
    }
    Ok(())
}

fn place_one(order: &mut IdList, orders: &mut Row<Placed>, id: &ActionId) -> Result<(), NoMemory>
    ensures order { OnOk result (order.new ≡ order.old ++ id.now ∷ []) }
    ensures orders { OnOk result (orders.new ≡ orders.old
        ++ record { place = suc (length order.old); id = id.now } ∷ []) }
{
    order.push(*id)?;
    orders.push(Placed {
        place: order.len() as u64,
        id: *id,
    })
}

fn show_made(made: &mut Cut, shown: &mut Row<Made>, actions: ActionList) -> Result<(), NoMemory>
    ensures made { OnOk result (made.new ≡ fold raise made.old (names_of actions)) }
    ensures shown { OnOk result (shown.new ≡ shown.old ++ map made_of_action actions) }
{
    for a in actions.into_vec() {
        show_one(made, shown, a)?;
    }
    Ok(())
}

fn show_one(made: &mut Cut, shown: &mut Row<Made>, a: Action) -> Result<(), NoMemory>
    ensures made { OnOk result (made.new ≡ raise made.old a.id) }
    ensures shown { OnOk result (shown.new ≡ shown.old ++ made_of_action a ∷ []) }
{
    let id = a.id;
    made.raise(id.creator, id.index);
    let kind = a.into_kind();
    shown.push(Made { id, kind })
}
