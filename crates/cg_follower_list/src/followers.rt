//! The followers that were made.

ghost use Rattle.std.specs.Prelude.{◌≡◌, ◌==◌, nat_lt, [], None, find, position, OnOk};
ghost use Rattle.std.specs.Option.{option_copied};
ghost use Rattle.std.specs.List.{prefix_len};
ghost use Rattle.cg_follower_list.specs.Followers.{follower_at, with_follower};
ghost use Rattle.cg_follower_list.specs.Turning.{IsTaken};

use crate::slot::Slot;
use cg_base::NoMemory;
use std::alloc::Global;
use std::marker::Model;

/// The followers that were made, ascending by number, each with its disk. Clauses see each as what its disk stands for.
pub struct FollowerList {
    list: Vec<Slot>,
}

impl Drop for FollowerList {
    fn drop(self) {
        let FollowerList { list: _ } = self;
    }
}

impl Model for FollowerList {
    ghost use Rattle.std.specs.Prelude.{List};
    ghost use Rattle.cg_follower_list.specs.Life.{Follower};
    ghost use Rattle.cg_follower_list.specs.Turning.{AreListed};

    ghost Value = { List Follower };

    ghost view = { λ x. x.list.items };

    ghost invariant = { λ x. AreListed x.list.items };
}

fn slot_of(slots: &[Slot], f: u8) -> Option<&Slot>
    ensures { option_copied result ≡ follower_at slots.now f }
{
    slots.iter().find(|s| s.id() == f)
}

// where the follower of a number stands, from 0
fn index_of(slots: &[Slot], f: u8) -> Option<usize>
    ensures { result ≡ position (λ s. s.id == f) slots.now }
{
    slots.iter().position(|s| s.id() == f)
}

// where the follower of a number that isn't there belongs, from 0
fn index_for(slots: &[Slot], f: u8) -> usize
    ensures { result ≡ prefix_len (λ s. nat_lt s.id f) slots.now }
{
    slots.iter().take_while(|s| s.id() < f).count()
}

impl FollowerList {
    /// No follower was made.
    pub fn new(alloc: Global) -> FollowerList
        ensures { result ≡ [] }
    {
        FollowerList {
            list: Vec::new(alloc),
        }
    }

    pub(crate) fn alloc(&self) -> Global {
        *self.list.allocator()
    }

    /// The follower of a number, where it was made. It takes no memory.
    pub(crate) fn find(&self, f: u8) -> Option<&Slot>
        ensures { option_copied result ≡ follower_at self.now f }
    {
        slot_of(self.list.as_slice(), f)
    }

    /// The follower of a number is taken out, where it was made: then there is none. It takes no memory.
    pub(crate) fn take(&mut self, f: u8) -> Option<Slot>
        ensures taken { IsTaken self.old self.new f result }
        ensures away { follower_at self.new f ≡ None }
    {
        match index_of(self.list.as_slice(), f) {
            Some(index) => Some(self.list.remove(index)),
            None => None,
        }
    }

    /// A follower of a number of which there is none.
    pub(crate) fn add(&mut self, slot: Slot) -> Result<(), NoMemory>
        requires { follower_at self.old slot.id ≡ None }
        ensures { OnOk result (self.new ≡ with_follower self.old slot) }
    {
        let index = index_for(self.list.as_slice(), slot.id());
        self.list.insert(index, slot)?;
        Ok(())
    }
}
