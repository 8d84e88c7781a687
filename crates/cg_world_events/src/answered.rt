ghost use Rattle.std.specs.Prelude.{◌≡◌, ◌+◌, ◌≤◌, ◌<◌, ◌^◌, [], map, fold, length, position, IfOk, OnOk};
ghost use Rattle.std.specs.List.{insert};
ghost use Rattle.cg_base.specs.Ids.{same_id};
ghost use Rattle.cg_model.specs.Show.{Answered, answered_from, with_answered};
ghost use Rattle.cg_world_events.specs.Showing.{FindsFrom};

use cg_base::{ActionId, NoMemory, Row};
use cg_report::Reply;
use std::alloc::Global;
use std::marker::Model;

/// A reply, with the place of its action in the global order.
#[derive(Drop)]
pub(crate) struct Answered {
    place: u64,
    reply: Reply,
}

impl Model for Answered {
    ghost use Rattle.cg_model.specs.Show.{Answered};

    ghost Value = { Answered };

    ghost view = { λ r. record { place = r.place; reply = r.reply } };
}

/// Replies, ascending by place.
pub struct Replies {
    list: Vec<Answered>,
}

impl Drop for Replies {
    fn drop(self) {
        let Replies { list: _ } = self;
    }
}

impl Model for Replies {
    ghost use Rattle.std.specs.Prelude.{List};
    ghost use Rattle.cg_model.specs.Show.{Answered};
    ghost use Rattle.cg_world_events.specs.Showing.{Ascend};

    ghost Value = { List Answered };

    ghost view = { λ r. r.list.items };

    ghost invariant = { λ r. Ascend r.list.items };
}

impl Replies {
    pub fn new(alloc: Global) -> Replies
        ensures { result ≡ [] }
    {
        Replies {
            list: Vec::new(alloc),
        }
    }

    /// The replies alone, ascending by place.
    pub fn into_replies(self) -> Result<Row<Reply>, NoMemory>
        ensures { IfOk result (λ row. row ≡ map (λ r. r.reply) self) }
    {
        let Replies { list } = self;
        let mut row = Row::new(*list.allocator());
        for one in list {
            row.push(one.reply)?;
        }
        Ok(row)
    }

    /// Replies to some of these names, the first of which has the place behind so many.
    pub fn answer(
        &mut self,
        before: u64,
        ids: &[ActionId],
        replies: Row<Reply>,
    ) -> Result<(), NoMemory>
        requires { before + length ids.now < 2 ^ 64 }
        ensures { OnOk result (self.new ≡ fold with_answered self.old (answered_from before ids.now replies)) }
    {
        let mut next = 0;
        for reply in replies.into_vec() {
            let at = find_from(ids, next, reply.id);
            if at < ids.len() {
                let place = before + at as u64 + 1;
                self.add(Answered { place, reply })?;
                next = at + 1;
            } else {
                next = at;
            }
        }
        Ok(())
    }

    // One more, behind those of earlier places.
    fn add(&mut self, new: Answered) -> Result<(), NoMemory>
        ensures { OnOk result (self.new ≡ with_answered self.old new) }
    {
        let at = self.count_up_to(new.place);
        self.list.insert(at, new)?;
        Ok(())
    }

    // How many have a place up to this one.
    fn count_up_to(&self, place: u64) -> usize
        ensures within { result ≤ length self.now }
        ensures value { (new : Answered) → new.place ≡ place → with_answered self.now new ≡ insert self.now result new }
    {
        self.list
            .as_slice()
            .partition_point(|reply| reply.place <= place)
    }
}

// Where the name stands among those from a place on; the end, if it doesn't.
fn find_from(ids: &[ActionId], from: usize, id: ActionId) -> usize
    requires { from ≤ length ids.now }
    ensures within { result ≤ length ids.now }
    ensures value { FindsFrom id ids.now from result }
{
    match index_of(&ids[from..], id) {
        Some(index) => from + index,
        None => ids.len(),
    }
}

fn index_of(ids: &[ActionId], id: ActionId) -> Option<usize>
    ensures { result ≡ position (λ name. same_id name id) ids.now }
{
    ids.iter().position(|name| *name == id)
}
