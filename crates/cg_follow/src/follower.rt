//! A follower, and the calls on its disk.

ghost use Rattle.std.specs.Prelude.{◌≡◌, ◌+◌, ◌<◌, ◌≤◌, Some, length, IfOk};
ghost use Rattle.cg_base.specs.declared.limits.TheConstants.{COUNT_LIMIT, LIST_LIMIT};
ghost use Rattle.cg_db.specs.Limits.{AreEntries};
ghost use Rattle.cg_follow.specs.Bytes.{follower_in};
ghost use Rattle.cg_follow.specs.Answers.{fault_of};

use crate::finding::find;
use crate::records::{feed_record, follower_record};
use crate::taken::Taken;
use crate::{FollowErr, FollowOpen, followers_are_exact};
use cg_action::{Action, ActionList, Answer, Query};
use cg_base::NoMemory;
use cg_db::Db;
use cg_disk::{Disk, ModelDisk, Side};
use cg_journal::{AppendErr, Bodies, FormatErr, Journal, JournalOpen};
use std::alloc::Global;
use std::marker::Model;

/// A follower with its disk, at rest. Clauses see the disk, the cursor and the entries of its database; what the disk
/// stands for is a function of its bytes.
pub struct Follower<D: Disk> {
    journal: Journal<D>,
    taken: Taken,
    alloc: Global,
}

impl<D: Disk + Drop> Drop for Follower<D> {
    fn drop(self) {
        let Follower {
            journal: _,
            taken: _,
            alloc: _,
        } = self;
    }
}

impl<D: Disk> Model for Follower<D> {
    ghost use Rattle.cg_follow.specs.Stands.{Following, IsFollower};

    ghost Value = { Following D };

    ghost view = { λ f. record { disk = f.journal; now = f.taken } };

    ghost invariant = { λ f. IsFollower (D.view f.journal) f.taken };
}

fn follow_fault<D: Disk>(fault: AppendErr<D>) -> FollowErr<D>
    ensures { result ≡ fault_of fault }
{
    match fault {
        AppendErr::Lost(disk) => FollowErr::Lost(disk),
        AppendErr::NoMemory(journal) => FollowErr::NoMemory(journal.into_disk()),
    }
}

// What a first record has, and its bytes.
fn first_record(alloc: Global, cursor: u64, db: &Db) -> Result<(Taken, Vec<u8>), NoMemory>
    requires small { cursor < COUNT_LIMIT }
    requires entries { AreEntries db.now }
    ensures taken { IfOk result (λ r. r.0 ≡ record { cursor = cursor; db = db.now }) }
    ensures is { IfOk result (λ r. follower_in r.1.items ≡ Some r.0) }
    ensures short { IfOk result (λ r. length r.1.items < LIST_LIMIT) }
{
    followers_are_exact();
    let body = follower_record(alloc, cursor, db)?;
    let db = db.copy()?;
    Ok((Taken { cursor, db }, body))
}

impl<D: Disk> Follower<D> {
    ghost use Rattle.cg_action.specs.ActionLimits.{IsAction};
    ghost use Rattle.cg_db.specs.Find.{answer};
    ghost use Rattle.cg_disk.specs.Calls.{Begins as DiskBegins};
    ghost use Rattle.cg_disk.specs.View.{IsAtRest};
    ghost use Rattle.cg_journal.specs.Opens.{no_records};
    ghost use Rattle.cg_journal.specs.Records.{records};
    ghost use Rattle.cg_base.specs.Lists.{Each};
    ghost use Rattle.cg_follow.specs.Answers.{Begins, Makes, Takes, Feeds, EachMoment, Resumes, OpensFollower};
    ghost use Rattle.cg_follow.specs.Bytes.{feed_in};
    ghost use Rattle.cg_follow.specs.Followed.{fed};
    ghost use Rattle.cg_follow.specs.Laws.{disk_fed};
    ghost use Rattle.cg_follow.specs.Stands.{IsEither, IsFollower, stands_for, follower_on};

    /// The follower of a new disk, with this cursor and these entries, in seven device calls. After an error the disk
    /// may be no follower's.
    pub fn make(alloc: Global, disk: D, cursor: u64, db: &Db) -> Result<Follower<D>, FollowErr<D>>
        requires calls { (D.view disk).time + 7 ≤ COUNT_LIMIT }
        requires small { cursor < COUNT_LIMIT }
        requires entries { AreEntries db.now }
        ensures { Makes D.view (record { cursor = cursor; db = db.now }) (D.view disk) result }
    {
        match first_record(alloc, cursor, db) {
            Ok((taken, body)) => Follower::format(alloc, disk, taken, &body),
            Err(_) => Err(FollowErr::NoMemory(disk)),
        }
    }

    fn format(
        alloc: Global,
        disk: D,
        taken: Taken,
        body: &[u8],
    ) -> Result<Follower<D>, FollowErr<D>>
        requires calls { (D.view disk).time + 7 ≤ COUNT_LIMIT }
        requires short { length body.now < LIST_LIMIT }
        requires is { follower_in body.now ≡ Some taken }
        ensures { Makes D.view taken (D.view disk) result }
    {
        match Journal::format(disk) {
            Ok(journal) => Follower::first(alloc, journal, taken, body),
            Err(FormatErr::Lost(disk)) => Err(FollowErr::Lost(disk)),
            Err(FormatErr::NoMemory(disk)) => Err(FollowErr::NoMemory(disk)),
        }
    }

    // Writes the first record.
    fn first(
        alloc: Global,
        journal: Journal<D>,
        taken: Taken,
        body: &[u8],
    ) -> Result<Follower<D>, FollowErr<D>>
        requires calls { (D.view journal).time + 4 ≤ COUNT_LIMIT }
        requires empty { records (D.view journal).reads ≡ Some no_records }
        requires short { length body.now < LIST_LIMIT }
        requires is { follower_in body.now ≡ Some taken }
        ensures { Begins D.view taken (D.view journal) result }
    {
        match journal.append(alloc, Side::A, body) {
            Ok(journal) => Ok(Follower {
                journal,
                taken,
                alloc,
            }),
            Err(fault) => Err(follow_fault(fault)),
        }
    }

    /// Takes the actions behind its cursor, in one append of four device calls; where there are none no call is made.
    /// The work is that of these actions alone. After an error the disk stands for the follower before or behind them.
    pub fn feed(self, list: &ActionList) -> Result<Follower<D>, FollowErr<D>>
        requires calls { (D.view self.disk).time + 4 ≤ COUNT_LIMIT }
        requires actions { Each IsAction list.now }
        ensures ends { Feeds D.view self list.now result }
        ensures time { (D.view (disk_fed result)).time ≤ (D.view self.disk).time + 4 }

        // At each moment every image stands for the follower before, or for the one behind these actions.
        ensures moments { EachMoment D.view (IsEither self.now (fed self.now list.now)) (D.view self.disk) result }
    {
        if list.is_empty() {
            return Ok(self);
        }
        followers_are_exact();
        match feed_record(self.alloc, list.as_slice()) {
            Ok(body) => self.take(list.as_slice(), &body),
            Err(_) => Err(FollowErr::NoMemory(self.into_disk())),
        }
    }

    // Takes the actions of a record. They are applied first, so that memory is refused before a call or not at all.
    fn take(self, actions: &[Action], body: &[u8]) -> Result<Follower<D>, FollowErr<D>>
        requires calls { (D.view self.disk).time + 4 ≤ COUNT_LIMIT }
        requires actions { Each IsAction actions.now }
        requires short { length body.now < LIST_LIMIT }
        requires is { feed_in body.now ≡ Some actions.now }
        ensures ends { Takes D.view self actions.now result }
        ensures moments { EachMoment D.view (IsEither self.now (fed self.now actions.now)) (D.view self.disk) result }
    {
        let Follower {
            journal,
            mut taken,
            alloc,
        } = self;
        let Ok(()) = taken.take(actions) else {
            return Err(FollowErr::NoMemory(journal.into_disk()));
        };
        match journal.append(alloc, Side::A, body) {
            Ok(journal) => Ok(Follower {
                journal,
                taken,
                alloc,
            }),
            Err(fault) => Err(follow_fault(fault)),
        }
    }

    /// Opens the disk of a follower, in five device calls, of which the first is a sync. `NotAFollower` says that the
    /// disk stands for none: it is no journal, or side A's first record is no follower's, or one behind it is no feed.
    pub fn open(alloc: Global, disk: D) -> Result<Follower<D>, FollowOpen<D>>
        requires { (D.view disk).time + 5 ≤ COUNT_LIMIT }
        ensures { OpensFollower D.view (D.view disk) result }
    {
        match Journal::open(alloc, disk) {
            Ok((journal, a, _b)) => Follower::open_journal(alloc, journal, &a),
            Err(JournalOpen::Lost(disk)) => Err(FollowOpen::Lost(disk)),
            Err(JournalOpen::NotAJournal(disk)) => Err(FollowOpen::NotAFollower(disk)),
            Err(JournalOpen::NoMemory(disk)) => Err(FollowOpen::NoMemory(disk)),
        }
    }

    // The follower of a journal with these records on side A: those of side B don't count.
    fn open_journal(
        alloc: Global,
        journal: Journal<D>,
        bodies: &Bodies,
    ) -> Result<Follower<D>, FollowOpen<D>>
        requires stands { stands_for (records (D.view journal).reads) ≡ follower_on bodies.now }
        requires rest { IsAtRest (D.view journal) }
        ensures { Resumes journal bodies.now result }
    {
        match find(alloc, bodies) {
            Ok(Some(taken)) => Ok(Follower {
                journal,
                taken,
                alloc,
            }),
            Ok(None) => Err(FollowOpen::NotAFollower(journal.into_disk())),
            Err(_) => Err(FollowOpen::NoMemory(journal.into_disk())),
        }
    }

    /// How many actions of the global order it has taken. It takes no memory.
    pub fn cursor(&self) -> u64
        ensures { result ≡ self.now.now.cursor }
    {
        self.taken.cursor
    }

    /// What always holds of a follower: its disk stands for it, and nothing on the disk is unsynced.
    pub fn holds(&self)
        ensures { IsFollower (D.view self.now.disk) self.now.now }
    {
        let _ = &self.taken;
    }

    /// What a query finds in its database.
    pub fn answer(&self, q: &Query) -> Result<Answer, NoMemory>
        ensures { IfOk result (λ found. found ≡ answer self.now.now.db q.now) }
    {
        self.taken.db.answer(q)
    }

    /// Its disk. It takes no memory.
    pub fn into_disk(self) -> D
        ensures disk { result ≡ self.disk }
        ensures holds { IsFollower (D.view self.disk) self.now }
    {
        let Follower {
            journal,
            taken: _,
            alloc: _,
        } = self;
        journal.into_disk()
    }

    /// The disk's `begin`. It takes no memory.
    pub fn begin(&mut self)
        ensures disk { DiskBegins (D.view self.old.disk) (D.view self.new.disk) }
        ensures same { self.new.now ≡ self.old.now }
    {
        self.journal.begin();
    }
}

/// The calls of a disk in memory, passed on to it.
impl Follower<ModelDisk> {
    ghost use Rattle.cg_disk.specs.State.{Stops};
    ghost use Rattle.cg_disk.specs.Crashes.{Arms};

    /// Arms a stop inside the nth next device call, n at least 1.
    pub fn stop_at(&mut self, n: u64)
        requires { 1 ≤ n }
        ensures disk { Arms Stops n (⟦<ModelDisk as Disk>⟧.view self.old.disk)
            (⟦<ModelDisk as Disk>⟧.view self.new.disk) }
        ensures same { self.new.now ≡ self.old.now }
    {
        self.journal.stop_at(n);
    }

    /// The device calls made so far.
    pub fn calls(&self) -> u64
        ensures { result ≡ (⟦<ModelDisk as Disk>⟧.view self.now.disk).time }
    {
        self.journal.calls()
    }
}
