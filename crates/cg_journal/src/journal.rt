//! A journal on the two sides of a disk.
ghost use Rattle.std.specs.Prelude.{◌≡◌, ℕ, ◌+◌, ◌<◌, ◌≤◌, List, length};
ghost use Rattle.cg_base.specs.declared.limits.TheConstants.{COUNT_LIMIT, LIST_LIMIT};
ghost use Rattle.cg_journal.specs.Records.{records, framed, IsFramed};

use crate::add::add;
use crate::bodies::Bodies;
use crate::close::close;
use crate::ends::Ends;
use crate::format::format_sides;
use crate::framed::framed;
use crate::load::load;
use crate::open::{FormatErr, JournalOpen};
use crate::parse::{EMPTY_END, parse_both};
use cg_disk::{Disk, DiskFault, ModelDisk, Side};
use std::alloc::Global;
use std::fmt;
use std::fmt::{Display, Formatter, Write};
use std::marker::Model;

/// Records on both sides of a disk, at rest. Clauses see its disk.
pub struct Journal<D: Disk> {
    disk: D,
    ends: Ends,
}

impl<D: Disk + Drop> Drop for Journal<D> {
    fn drop(self) {
        let Journal { disk: _, ends: _ } = self;
    }
}

impl<D: Disk> Model for Journal<D> {
    ghost use Rattle.cg_journal.specs.Held.{IsJournal};

    ghost Value = { D };

    ghost view = { λ j. j.disk };

    ghost invariant = { λ j. IsJournal (D.view j.disk) j.ends };
}

/// What ended an append or a restart.
#[derive(Drop)]
pub enum AppendErr<D: Disk> {
    /// A device call failed. The disk's images stand for the records before or after.
    Lost(D),
    /// Memory was refused, and no device call failed.
    NoMemory(Journal<D>),
}

impl<D: Disk> Journal<D> {
    ghost use Rattle.cg_journal.specs.Answers.{CanBeRead, Appends, Restarts, ClosesSide, EachMoment, IsRestarting, with_record, without_records};
    ghost use Rattle.cg_journal.specs.Adds.{IsEither};
    ghost use Rattle.cg_journal.specs.Opens.{Formats, Opens};
    ghost use Rattle.cg_journal.specs.Held.{IsJournal, end_of};
    ghost use Rattle.cg_journal.specs.Records.{Records, on_side};
    ghost use Rattle.cg_disk.specs.Calls.{Begins};
    ghost use Rattle.std.specs.Prelude.{Some};

    /// Makes a journal without records, in three device calls: on each side the header and a closed gate, and a sync.
    /// After an error the disk may be no journal.
    pub fn format(mut disk: D) -> Result<Journal<D>, FormatErr<D>>
        requires { (D.view disk).time + 3 ≤ COUNT_LIMIT }
        ensures { Formats D.view (D.view disk) result }
    {
        match format_sides(&mut disk) {
            Ok(()) => Ok(Journal {
                disk,
                ends: Ends {
                    a: EMPTY_END,
                    b: EMPTY_END,
                },
            }),
            Err(DiskFault::Failed) => Err(FormatErr::Lost(disk)),
            Err(DiskFault::NoMemory) => Err(FormatErr::NoMemory(disk)),
        }
    }

    /// Opens a journal, with the bodies of its records on side A and on side B, in five device calls: a sync, the two
    /// sizes, and one read of each side.
    pub fn open(alloc: Global, mut disk: D) -> Result<(Journal<D>, Bodies, Bodies), JournalOpen<D>>
        requires { (D.view disk).time + 5 ≤ COUNT_LIMIT }
        ensures { Opens D.view (D.view disk) result }
    {
        let (a, b) = match load(&mut disk, alloc) {
            Ok(sides) => sides,
            Err(DiskFault::Failed) => return Err(JournalOpen::Lost(disk)),
            Err(DiskFault::NoMemory) => return Err(JournalOpen::NoMemory(disk)),
        };
        match parse_both(alloc, a, b) {
            Ok(Some((a, b))) => Ok((
                Journal {
                    disk,
                    ends: Ends { a: a.end, b: b.end },
                },
                a.bodies,
                b.bodies,
            )),
            Ok(None) => Err(JournalOpen::NotAJournal(disk)),
            Err(_) => Err(JournalOpen::NoMemory(disk)),
        }
    }

    // The journal of a disk whose records end at these offsets.
    pub(crate) fn of(disk: D, ends: Ends) -> Journal<D>
        requires { IsJournal (D.view disk) ends }
        ensures { result ≡ disk }
    {
        Journal { disk, ends }
    }

    /// Adds a record on a side, in four device calls.
    pub fn append(self, alloc: Global, side: Side, body: &[u8]) -> Result<Journal<D>, AppendErr<D>>
        requires calls { (D.view self).time + 4 ≤ COUNT_LIMIT }
        requires short { length body.now < LIST_LIMIT }

        // At each moment every image stands for the records before, or for those with the new one.
        ensures moments { EachMoment
            D.view (IsEither (records (D.view self).reads) (with_record side body.now (D.view self))) (D.view self)
            result }
        ensures ends { Appends D.view side body.now (D.view self) result }
    {
        match framed(alloc, body) {
            Ok(bytes) => self.append_framed(side, &bytes),
            Err(_) => Err(AppendErr::NoMemory(self)),
        }
    }

    /// Puts a record in place of all those of a side, in six device calls.
    pub fn restart(self, alloc: Global, side: Side, body: &[u8]) -> Result<Journal<D>, AppendErr<D>>
        requires calls { (D.view self).time + 6 ≤ COUNT_LIMIT }
        requires short { length body.now < LIST_LIMIT }

        // At each moment every image has the records before on that side, or none, or the new one alone.
        ensures moments { EachMoment D.view (IsRestarting side body.now (D.view self)) (D.view self) result }
        ensures ends { Restarts D.view side body.now (D.view self) result }
    {
        let bytes = match framed(alloc, body) {
            Ok(bytes) => bytes,
            Err(_) => return Err(AppendErr::NoMemory(self)),
        };
        match self.closed(side) {
            Ok(journal) => journal.append_framed(side, &bytes),
            Err(fault) => Err(fault),
        }
    }

    /// The records of both sides can be read. It does nothing.
    pub fn holds(&self)
        ensures { CanBeRead (D.view self.now) }
    {
        let _ends = &self.ends;
    }

    // Adds a record that is spelled here.
    fn append_framed(self, side: Side, bytes: &[u8]) -> Result<Journal<D>, AppendErr<D>>
        requires calls { (D.view self).time + 4 ≤ COUNT_LIMIT }
        requires framed { IsFramed bytes.now }
        ensures ends { (body : List ℕ) → bytes.now ≡ framed body → length body < LIST_LIMIT →
            Appends D.view side body (D.view self) result }
        ensures moments { (body : List ℕ) → bytes.now ≡ framed body → length body < LIST_LIMIT
            → EachMoment
            D.view (IsEither (records (D.view self).reads) (with_record side body (D.view self))) (D.view self)
            result }
    {
        let Journal { mut disk, ends } = self;
        let end = ends.on(side);
        match add(&mut disk, side, end, bytes) {
            Ok(()) => Ok(Journal {
                disk,
                ends: ends.with(side, end + bytes.len() as u64),
            }),
            Err(DiskFault::Failed) => Err(AppendErr::Lost(disk)),
            Err(DiskFault::NoMemory) => Err(AppendErr::NoMemory(Journal { disk, ends })),
        }
    }

    // Takes the records of a side away.
    fn closed(self, side: Side) -> Result<Journal<D>, AppendErr<D>>
        requires calls { (D.view self).time + 2 ≤ COUNT_LIMIT }
        ensures ends { ClosesSide D.view side (D.view self) result }
        ensures moments { EachMoment
            D.view (IsEither (records (D.view self).reads) (without_records side (D.view self))) (D.view self) result }
    {
        let Journal { mut disk, ends } = self;
        match close(&mut disk, side, ends.on(side)) {
            Ok(()) => Ok(Journal {
                disk,
                ends: ends.with(side, EMPTY_END),
            }),
            Err(DiskFault::Failed) => Err(AppendErr::Lost(disk)),
            Err(DiskFault::NoMemory) => Err(AppendErr::NoMemory(Journal { disk, ends })),
        }
    }

    /// Where the records of a side end: the offset just past the gate behind the last one. It takes no memory.
    pub fn length(&self, side: Side) -> u64
        ensures { (r : Records) → records (D.view self.now).reads ≡ Some r → result ≡ end_of (on_side side r) }
    {
        self.ends.on(side)
    }

    /// The disk's `begin`.
    pub fn begin(&mut self)
        ensures { Begins (D.view self.old) (D.view self.new) }
    {
        self.disk.begin();
    }

    /// Its disk. It takes no memory.
    pub fn into_disk(self) -> D
        ensures { result ≡ self }
    {
        let Journal { disk, ends: _ } = self;
        disk
    }
}

/// The four calls of a disk in memory, passed on to it.
impl Journal<ModelDisk> {
    ghost use Rattle.cg_disk.specs.State.{Fails, Stops};
    ghost use Rattle.cg_disk.specs.Crashes.{Arms, Disarms};

    /// Arms the nth next device call, n at least 1, to fail once.
    pub fn fail_at(&mut self, n: u64)
        requires { 1 ≤ n }
        ensures { Arms Fails n (⟦<ModelDisk as Disk>⟧.view self.old) (⟦<ModelDisk as Disk>⟧.view self.new) }
    {
        self.disk.fail_at(n);
    }

    /// Arms a stop inside the nth next device call, n at least 1.
    pub fn stop_at(&mut self, n: u64)
        requires { 1 ≤ n }
        ensures { Arms Stops n (⟦<ModelDisk as Disk>⟧.view self.old) (⟦<ModelDisk as Disk>⟧.view self.new) }
    {
        self.disk.stop_at(n);
    }

    /// Nothing is armed any more.
    pub fn disarm(&mut self)
        ensures { Disarms (⟦<ModelDisk as Disk>⟧.view self.old) (⟦<ModelDisk as Disk>⟧.view self.new) }
    {
        self.disk.disarm();
    }

    /// The device calls made so far.
    pub fn calls(&self) -> u64
        ensures { result ≡ (⟦<ModelDisk as Disk>⟧.view self.now).time }
    {
        self.disk.calls()
    }
}

impl<D: Disk> Display for AppendErr<D> {
    fn fmt<W: Write>(&self, f: &mut Formatter<W>) -> fmt::Result {
        match self {
            AppendErr::Lost(_) => f.write_str("a device call failed"),
            AppendErr::NoMemory(_) => f.write_str("memory was refused"),
        }
    }
}
