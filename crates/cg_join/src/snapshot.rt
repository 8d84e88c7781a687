//! A copy of what a replica had green, and its pieces.
ghost use Rattle.std.specs.Prelude.{◌≡◌, ◌≤◌, ◌<◌, ◌-◌, Some, length, fold, slice_get, OnOk, IfOk, IfSome};
ghost use Rattle.cg_base.specs.declared.limits.TheConstants.{COUNT_LIMIT};
ghost use Rattle.cg_action.specs.ActionLimits.{IsAction};
ghost use Rattle.cg_db.specs.Limits.{AreEntries};
ghost use Rattle.cg_db.specs.Ascending.{Ascends};
ghost use Rattle.cg_base.specs.Lists.{Each};
ghost use Rattle.cg_records.specs.Limits.{IsNumber};
ghost use Rattle.cg_join.specs.Limits.{IsHead, IsPiece};
ghost use Rattle.cg_join.specs.Snapshot.{head_of, parts_of, with_green_part, with_entry_part, piece_at, bytes_at};

use crate::writing::encode;
use crate::{Label, PieceContent, SnapshotHead, SnapshotName};
use cg_action::{ActionList, Boxed, EntryList, Limited};
use cg_base::{Bytes, NoMemory};
use cg_client::Core;
use cg_disk_records::Reached;
use std::alloc::Global;
use std::marker::Model;

/// What a replica had green when the snapshot was made. Its memory is that content, once.
pub struct SnapshotWriter {
    name: SnapshotName,
    parts: Limited<PieceContent>,
    alloc: Global,
}

impl Drop for SnapshotWriter {
    fn drop(self) {
        let SnapshotWriter {
            name: _,
            parts: _,
            alloc: _,
        } = self;
    }
}

impl Model for SnapshotWriter {
    ghost use Rattle.cg_records.specs.Limits.{IsNumber};
    ghost use Rattle.cg_join.specs.Snapshot.{Snapshot};

    ghost Value = { Snapshot };

    ghost view = { λ w. record { name = w.name; parts = w.parts } };

    ghost invariant = { λ w. IsNumber w.name.number };
}

impl SnapshotWriter {
    /// A copy of what the replica has green.
    pub fn make(core: &Core, name: SnapshotName) -> Result<SnapshotWriter, NoMemory>
        requires { IsNumber name.number }
        ensures value { IfOk result (λ s. s ≡ record { name = name; parts = parts_of core.now }) }
        ensures ascends { OnOk result (Ascends core.now.db) }
    {
        let alloc = core.alloc();
        let greens = core.greens()?;
        let entries = core.entries()?;
        // with the head and the end
        let count = greens.len().saturating_add(entries.len()).saturating_add(2);
        let mut parts = Limited::with_capacity(alloc, count)?;
        let head = Boxed::new(alloc, head_of(core))?;
        parts.push(PieceContent::Start(head))?;
        push_greens(alloc, &mut parts, greens)?;
        push_entries(&mut parts, entries)?;
        parts.push(PieceContent::End)?;
        Ok(SnapshotWriter { name, parts, alloc })
    }

    /// What always holds of a snapshot.
    pub fn holds(&self)
        ensures { length self.now.parts ≤ COUNT_LIMIT }
    {
        let _count = self.parts.len();
    }

    /// The number of pieces.
    pub fn count(&self) -> u64
        ensures value { result ≡ length self.now.parts }
        ensures most { length self.now.parts ≤ COUNT_LIMIT }
    {
        self.parts.len()
    }

    /// The bytes of a piece, counted from 1.
    pub fn piece(&self, n: u64) -> Result<Bytes, NoMemory>
        requires { (1 ≤ n) × (n ≤ length self.now.parts) }
        ensures value { IfOk result (λ bytes. bytes_at self.now n ≡ Some bytes) }
        ensures piece { IfSome (slice_get self.now.parts (n - 1)) (λ part. IsPiece (piece_at self.now n part)) }
    {
        self.name.giver.holds();
        let label = Label {
            name: self.name,
            number: n,
            count: self.parts.len(),
        };
        match self.parts.get((n - 1) as usize) {
            Some(part) => encode(self.alloc, &label, part),
            None => unreachable!(),
        }
    }
}

fn head_of(core: &Core) -> SnapshotHead
    ensures value { result ≡ head_of core.now }
    ensures limits { IsHead result }
{
    let queue = core.queue();
    let members = core.members();
    members.holds();
    SnapshotHead {
        prim: core.prim(),
        attempt_index: core.attempt_index(),
        reached: Reached {
            count: queue.green_count(),
            white: queue.white_count(),
            cut: core.green_cut(),
            members: members.copy(),
        },
    }
}

fn push_greens(
    alloc: Global,
    parts: &mut Limited<PieceContent>,
    greens: ActionList,
) -> Result<(), NoMemory>
    requires { Each IsAction greens }
    ensures { OnOk result (parts.new ≡ fold with_green_part parts.old greens) }
{
    for a in greens.into_vec() {
        let action = Boxed::new(alloc, a)?;
        parts.push(PieceContent::Green(action))?;
    }
    Ok(())
}

fn push_entries(parts: &mut Limited<PieceContent>, entries: EntryList) -> Result<(), NoMemory>
    requires { AreEntries entries }
    ensures { OnOk result (parts.new ≡ fold with_entry_part parts.old entries) }
{
    for e in entries.into_vec() {
        parts.push(PieceContent::Entry(e))?;
    }
    Ok(())
}
