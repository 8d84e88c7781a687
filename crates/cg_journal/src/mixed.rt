//! A disk whose sides may be of either format.
ghost use Rattle.std.specs.Prelude.{◌≡◌, ◌≢◌, ℕ, ◌+◌, ◌<◌, ◌≤◌, length};
ghost use Rattle.cg_base.specs.declared.limits.TheConstants.{COUNT_LIMIT, LIST_LIMIT};

use crate::either::parse_either_side;
use crate::ends::Ends;
use crate::framed::framed;
use crate::heads::{Head, Heads};
use crate::journal::Journal;
use crate::load::load;
use crate::migrate::{clear_side, renew_side};
use crate::open::{JournalOpen, MigrateErr, SideRecords};
use crate::parse::EMPTY_END;
use cg_disk::{Disk, DiskFault, Side};
use std::alloc::Global;
use std::marker::Model;

/// A disk whose sides may be of either format, at rest. Clauses see its disk.
pub struct MixedJournal<D: Disk> {
    disk: D,
    heads: Heads,
}

impl<D: Disk + Drop> Drop for MixedJournal<D> {
    fn drop(self) {
        let MixedJournal { disk: _, heads: _ } = self;
    }
}

impl<D: Disk> Model for MixedJournal<D> {
    ghost use Rattle.cg_journal.specs.Heads.{IsMixedJournal};

    ghost Value = { D };

    ghost view = { λ j. j.disk };

    ghost invariant = { λ j. IsMixedJournal (D.view j.disk) j.heads };
}

impl<D: Disk> MixedJournal<D> {
    ghost use Rattle.cg_journal.specs.Answers.{CanBeRead};
    ghost use Rattle.cg_journal.specs.Found.{Sides};
    ghost use Rattle.cg_journal.specs.Renews.{MayGo, IsUnrenewed, IsRenewing, Renews, MomentsOf};
    ghost use Rattle.cg_journal.specs.Clears.{Clears};
    ghost use Rattle.cg_journal.specs.OpensMixed.{OpensMixed};

    /// Opens a disk of either format, with what is found on side A and on side B, in five device calls: a sync, the two
    /// sizes, and one read of each side.
    pub fn open(
        alloc: Global,
        mut disk: D,
    ) -> Result<(MixedJournal<D>, SideRecords, SideRecords), JournalOpen<D>>
        requires { (D.view disk).time + 5 ≤ COUNT_LIMIT }
        ensures { OpensMixed D.view (D.view disk) result }
    {
        let (a, b) = match load(&mut disk, alloc) {
            Ok(sides) => sides,
            Err(DiskFault::Failed) => return Err(JournalOpen::Lost(disk)),
            Err(DiskFault::NoMemory) => return Err(JournalOpen::NoMemory(disk)),
        };
        match parse_either_side(alloc, a, b) {
            Ok(Some((a, b))) => {
                let heads = Heads {
                    a: a.head,
                    b: b.head,
                };
                Ok((MixedJournal { disk, heads }, a.records, b.records))
            }
            Ok(None) => Err(JournalOpen::NotAJournal(disk)),
            Err(_) => Err(JournalOpen::NoMemory(disk)),
        }
    }

    /// Puts a record in place of all that a side has, which goes over to the newer format, in seven device calls: two
    /// close its gate, three write its header and the record behind the closed gate, two open it.
    pub fn renew(
        self,
        alloc: Global,
        side: Side,
        body: &[u8],
    ) -> Result<MixedJournal<D>, MigrateErr<D>>
        requires calls { (D.view self).time + 7 ≤ COUNT_LIMIT }
        requires short { length body.now < LIST_LIMIT }

        // At each moment every image has on that side what it had, nothing, or the new record alone.
        ensures moments { (s : Sides) → MayGo side s (D.view self) →
            MomentsOf D.view (IsRenewing side body.now s) (D.view self) result }
        ensures ends { (s : Sides) → MayGo side s (D.view self) → Renews D.view side body.now s (D.view self) result }
    {
        let MixedJournal { mut disk, heads } = self;
        let bytes = match framed(alloc, body) {
            Ok(bytes) => bytes,
            Err(_) => return Err(MigrateErr::NoMemory(disk)),
        };
        match renew_side(&mut disk, side, heads.on(side).is_open, &bytes) {
            Ok(()) => {
                let head = Head {
                    is_open: true,
                    end: EMPTY_END + bytes.len() as u64,
                };
                let heads = heads.with(side, head);
                Ok(MixedJournal { disk, heads })
            }
            Err(DiskFault::Failed) => Err(MigrateErr::Lost(disk)),
            Err(DiskFault::NoMemory) => Err(MigrateErr::NoMemory(disk)),
        }
    }

    /// Takes all that a side has away, which goes over to the newer format, in four device calls: two close its gate, two
    /// write its header.
    pub fn clear(self, side: Side) -> Result<MixedJournal<D>, MigrateErr<D>>
        requires calls { (D.view self).time + 4 ≤ COUNT_LIMIT }

        // At each moment every image has on that side what it had, or nothing.
        ensures moments { (s : Sides) → MayGo side s (D.view self) →
            MomentsOf D.view (IsUnrenewed side s) (D.view self) result }
        ensures ends { (s : Sides) → MayGo side s (D.view self) → Clears D.view side s (D.view self) result }
    {
        let MixedJournal { mut disk, heads } = self;
        match clear_side(&mut disk, side, heads.on(side).is_open) {
            Ok(()) => {
                let head = Head {
                    is_open: false,
                    end: EMPTY_END,
                };
                let heads = heads.with(side, head);
                Ok(MixedJournal { disk, heads })
            }
            Err(DiskFault::Failed) => Err(MigrateErr::Lost(disk)),
            Err(DiskFault::NoMemory) => Err(MigrateErr::NoMemory(disk)),
        }
    }

    /// The journal, where both sides are of the newer format. It takes no memory.
    pub fn into_journal(self) -> Journal<D>
        requires { CanBeRead (D.view self) }
        ensures { result ≡ self }
    {
        let MixedJournal { disk, heads } = self;
        Journal::of(
            disk,
            Ends {
                a: heads.a.end,
                b: heads.b.end,
            },
        )
    }

    /// Its disk. It takes no memory.
    pub fn into_disk(self) -> D
        ensures { result ≡ self }
    {
        let MixedJournal { disk, heads: _ } = self;
        disk
    }
}
