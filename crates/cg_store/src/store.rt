//! A replica's store, and the calls that write.
ghost use Rattle.std.specs.Prelude.{◌≡◌, ◌+◌, ◌<◌, ◌≤◌, suc, nat_lt};
ghost use Rattle.std.specs.Prelude.{IfOk, OnOk, length, false};
ghost use Rattle.cg_base.specs.declared.limits.TheConstants.{COUNT_LIMIT, LIST_LIMIT};
ghost use Rattle.cg_disk_records.specs.Stored.{stable_of};
ghost use Rattle.cg_disk_records.specs.Checkpoint.{spelled_checkpoint};
ghost use Rattle.cg_disk_records.specs.Limits.{IsStored};
ghost use Rattle.cg_store.specs.Calls.{paired as answer_with, commit_fault as fault_of};
ghost use Rattle.cg_store.specs.Migrating.{format_fault};
ghost use Rattle.cg_store.specs.ComingUp.{move_fault, read_fault};
ghost use Rattle.cg_client.specs.Drafts.{turn_with};
ghost use Rattle.cg_client.specs.Replica.{State};

use crate::finding::{OpenedSide, other};
use crate::older::find_on;
use crate::pending_record::{PendingRecord, prepare};
use crate::records::checkpoint_record;
use crate::settling::{Settled, settle};
use crate::{CommitErr, OpenErr, Outputs};
use cg_action::{Action, ActionList, Limited};
use cg_base::{NUMBER_LIMIT, NoMemory, ReplicaId, Row};
use cg_client::{Core, Draft, DraftParts};
use cg_disk::{Disk, ModelDisk, Side};
use cg_disk_records::{CHECKPOINT_BYTES, changes_are_exact, checkpoints_are_exact};
use cg_journal::{
    AppendErr, FormatErr, Journal, JournalOpen, MigrateErr, MixedJournal, SideRecords, make_old,
};
use cg_older::{old_checkpoint, old_checkpoints_are_exact};
use cg_records::Stable;
use std::alloc::Global;
use std::marker::Model;

/// A replica's disk, at rest. Clauses see the disk, whose it is, and the red marks that stand in no record of it; what the
/// disk stands for is a function of its bytes.
pub struct Store<D: Disk> {
    journal: Journal<D>,
    id: ReplicaId,
    // the side in use, and the generation of its checkpoint
    side: Side,
    generation: u64,
    // the values that stand on the disk
    values: Stable,
    // red marks that stand in no record yet
    unwritten: Limited<Action>,
}

impl<D: Disk + Drop> Drop for Store<D> {
    fn drop(self) {
        let Store {
            journal: _,
            id: _,
            side: _,
            generation: _,
            values: _,
            unwritten: _,
        } = self;
    }
}

impl<D: Disk> Model for Store<D> {
    ghost use Rattle.cg_store.specs.StoreState.{StoreState, IsStore};

    ghost Value = { StoreState D };

    ghost view = { λ s. record { disk = s.journal; id = s.id; unwritten = s.unwritten } };

    ghost invariant = { λ s. IsStore (D.view s.journal) s.id s.side s.generation s.values };
}

fn format_fault<D: Disk>(fault: FormatErr<D>) -> CommitErr<D>
    ensures { result ≡ format_fault fault }
{
    match fault {
        FormatErr::Lost(disk) => CommitErr::Lost(disk),
        FormatErr::NoMemory(disk) => CommitErr::NoMemory(disk),
    }
}

// What the first record has, and its bytes.
fn first_record(alloc: Global, core: &Core) -> Result<(Stable, Vec<u8>), NoMemory>
    ensures values { IfOk result (λ r. r.0 ≡ stable_of core.now) }
    ensures spelled { IfOk result (λ r. r.1.items ≡ spelled_checkpoint 1 core.now) }
    ensures within { OnOk result (IsStored core.now) }
    ensures short { IfOk result (λ r. length r.1.items < LIST_LIMIT) }
{
    let values = core.stable()?;
    let body = checkpoint_record(alloc, 1, core)?;
    Ok((values, body))
}

fn commit_fault<D: Disk>(fault: AppendErr<D>) -> CommitErr<D>
    ensures { result ≡ fault_of fault }
{
    match fault {
        AppendErr::Lost(disk) => CommitErr::Lost(disk),
        AppendErr::NoMemory(journal) => CommitErr::NoMemory(journal.into_disk()),
    }
}

fn read_fault<D: Disk>(fault: JournalOpen<D>) -> OpenErr<D>
    ensures { result ≡ read_fault fault }
{
    match fault {
        JournalOpen::Lost(disk) => OpenErr::Lost(disk),
        JournalOpen::NotAJournal(disk) => OpenErr::NotAStore(disk),
        JournalOpen::NoMemory(disk) => OpenErr::NoMemory(disk),
    }
}

fn move_fault<D: Disk>(fault: MigrateErr<D>) -> OpenErr<D>
    ensures { result ≡ move_fault fault }
{
    match fault {
        MigrateErr::Lost(disk) => OpenErr::Lost(disk),
        MigrateErr::NoMemory(disk) => OpenErr::NoMemory(disk),
    }
}

// The answer of a call, with what is given out behind it.
fn paired<D: Disk>(
    answer: Result<Store<D>, CommitErr<D>>,
    outputs: Outputs,
) -> Result<(Store<D>, Outputs), CommitErr<D>>
    ensures { result ≡ answer_with answer outputs }
{
    match answer {
        Ok(store) => Ok((store, outputs)),
        Err(fault) => Err(fault),
    }
}

impl<D: Disk> Store<D> {
    ghost use Rattle.std.specs.Prelude.{IfOk, OnOk, IfSome, Some, length};
    ghost use Rattle.cg_base.specs.Choice.{Either};
    ghost use Rattle.cg_action.specs.ActionLimits.{IsAction};
    ghost use Rattle.cg_disk.specs.Calls.{Begins as DiskBegins};
    ghost use Rattle.cg_journal.specs.Records.{records};
    ghost use Rattle.cg_journal.specs.Opens.{no_records};
    ghost use Rattle.cg_disk_records.specs.Limits.{IsStored};
    ghost use Rattle.cg_base.specs.Lists.{Each};
    ghost use Rattle.cg_records.specs.Limits.{IsNumber};
    ghost use Rattle.cg_disk_records.specs.Commit.{commits};
    ghost use Rattle.cg_disk_records.specs.Stored.{Stored, stored_of};
    ghost use Rattle.cg_disk_records.specs.Checkpoint.{size_limit, spelled_checkpoint};
    ghost use Rattle.cg_disk_records.specs.Parts.{checkpoint_in};
    ghost use Rattle.cg_disk_records.specs.Following.{IsRecorded};
    ghost use Rattle.cg_disk_records.specs.Agreeing.{Agrees};
    ghost use Rattle.cg_store.specs.Stands.{OnDisk, Stands, begun, created, moved, committed, checkpointed};
    ghost use Rattle.cg_store.specs.Answers.{EachMoment};
    ghost use Rattle.cg_store.specs.Due.{IsReady, IsLed, IsBehind, WhetherDue};
    ghost use Rattle.cg_disk.specs.View.{IsAtRest};
    ghost use Rattle.cg_journal.specs.Found.{sides};
    ghost use Rattle.cg_store.specs.Opening.{OpensStore};
    ghost use Rattle.cg_older.specs.Older.{has_weights};
    ghost use Rattle.cg_store.specs.ComingUp.{ComesUp};
    ghost use Rattle.cg_store.specs.Migrating.{MakesOld};
    ghost use Rattle.cg_store.specs.Settling.{IsAtHand};
    ghost use Rattle.cg_store.specs.Calls.{Creates, Writes, Commits, KeepsMarks, Keeps, Moves, IsEither, IsSaved, IsFirst, Begins};

    /// Ends an event: what it changes of what stands on the disk is written in four device calls, with the white count
    /// risen; the core's own is to rise behind it. Where nothing of it is to be written no call is made, and its red marks
    /// are kept for the next record.
    pub fn commit(self, core: &Core, draft: Draft) -> Result<(Store<D>, Outputs), CommitErr<D>>
        requires calls { (D.view self.disk).time + 4 ≤ COUNT_LIMIT }

        // The event's record leads from what the disk stands for to what the commit leaves.
        requires recorded { (u : OnDisk) (state : State) → Stands self.id (D.view self.disk).reads u →
            IsRecorded u.content self.unwritten (turn_with core.now state draft) }

        ensures ends { (u : OnDisk) (state : State) → Stands self.id (D.view self.disk).reads u →
            (let t = turn_with core.now state draft in
            Either (commits u.content t) (Commits D.view self u (committed self.unwritten t u) draft result)
            (Keeps self draft result)) }

        ensures time { IfOk result (λ done. (D.view done.0.disk).time ≤ (D.view self.disk).time + 4) }

        // At each moment every image stands for the state before, or for the one behind the commit.
        ensures moments { (u : OnDisk) (state : State) → Stands self.id (D.view self.disk).reads u →
            EachMoment D.view (λ done. done.0.disk) (IsEither self.id
            u (committed self.unwritten (turn_with core.now state draft) u)) (D.view self.disk) result }
    {
        changes_are_exact();
        let alloc = core.alloc();
        match self.ready(alloc, core, &draft) {
            Ok(due) => self.commit_parts(alloc, draft.into_parts(), due),
            Err(_) => {
                draft.abandon();
                Err(CommitErr::NoMemory(self.into_disk()))
            }
        }
    }

    // All that an event needs before its first device call.
    fn ready(
        &self,
        alloc: Global,
        core: &Core,
        draft: &Draft,
    ) -> Result<Option<PendingRecord>, NoMemory>
        ensures short { IfOk result (λ due. IfSome due (λ x. length x.body < LIST_LIMIT)) }
        ensures due { IfOk result (λ due. (u : OnDisk) (state : State) →
            Stands self.now.id (D.view self.now.disk).reads u →
            IsReady u.content self.now.unwritten core.now draft.now state due) }
    {
        let unwritten = self.unwritten.as_slice();
        let due = prepare(alloc, &self.values, unwritten, core, draft)?;
        Ok(due)
    }

    fn commit_parts(
        self,
        alloc: Global,
        parts: DraftParts,
        due: Option<PendingRecord>,
    ) -> Result<(Store<D>, Outputs), CommitErr<D>>
        requires calls { (D.view self.disk).time + 4 ≤ COUNT_LIMIT }
        requires known { Each IsAction parts.known }
        requires short { IfSome due (λ x. length x.body < LIST_LIMIT) }
        requires leads { (u : OnDisk) → Stands self.id (D.view self.disk).reads u → IfSome due (IsLed u) }
        ensures ends { (u : OnDisk) (v : OnDisk) → Stands self.id (D.view self.disk).reads u → IsBehind u due v →
            WhetherDue due (Commits D.view self u v parts result) (Keeps self parts result) }
        ensures time { IfOk result (λ done. (D.view done.0.disk).time ≤ (D.view self.disk).time + 4) }
        ensures moments { (u : OnDisk) (v : OnDisk) → Stands self.id (D.view self.disk).reads u → IsBehind u due v →
            EachMoment D.view (λ done. done.0.disk) (IsEither self.id u v) (D.view self.disk) result }
    {
        let DraftParts {
            known,
            green,
            made,
            sent,
            replies,
            ..
        } = parts;
        let outputs = Outputs {
            made,
            sent,
            replies,
            green,
            written: due.is_some(),
        };
        match due {
            Some(due) => paired(self.write(alloc, due), outputs),
            None => paired(self.keep_marks(known), outputs),
        }
    }

    // Writes the record of an event.
    fn write(self, alloc: Global, due: PendingRecord) -> Result<Store<D>, CommitErr<D>>
        requires calls { (D.view self.disk).time + 4 ≤ COUNT_LIMIT }
        requires short { length due.body < LIST_LIMIT }
        requires leads { (u : OnDisk) → Stands self.id (D.view self.disk).reads u → IsLed u due }
        ensures ends { (u : OnDisk) (v : OnDisk) → Stands self.id (D.view self.disk).reads u → IsBehind u (Some due) v →
            Writes D.view self u v result }
        ensures time { IfOk result (λ s. (D.view s.disk).time ≤ (D.view self.disk).time + 4) }
        ensures moments { (u : OnDisk) (v : OnDisk) → Stands self.id (D.view self.disk).reads u →
            IsBehind u (Some due) v →
            EachMoment D.view (λ s. s.disk) (IsEither self.id u v) (D.view self.disk) result }
    {
        let Store {
            journal,
            id,
            side,
            generation,
            values: _,
            unwritten: _,
        } = self;
        let PendingRecord { body, values } = due;
        match journal.append(alloc, side, body.as_slice()) {
            Ok(journal) => Ok(Store {
                journal,
                id,
                side,
                generation,
                values,
                unwritten: Limited::new(alloc),
            }),
            Err(fault) => Err(commit_fault(fault)),
        }
    }

    // Keeps red marks that are not to be written yet.
    fn keep_marks(self, known: ActionList) -> Result<Store<D>, CommitErr<D>>
        requires { Each IsAction known }
        ensures ends { KeepsMarks self known result }
        ensures moments { (u : OnDisk) (v : OnDisk) → Stands self.id (D.view self.disk).reads u →
            EachMoment D.view (λ s. s.disk) (IsEither self.id u v) (D.view self.disk) result }
    {
        let mut store = self;
        match store.unwritten.add_all(known) {
            Ok(()) => Ok(store),
            Err(_) => Err(CommitErr::NoMemory(store.into_disk())),
        }
    }

    /// Writes the state in one checkpoint on the other side, in six device calls. No state is changed by it.
    pub fn checkpoint(self, core: &Core) -> Result<Store<D>, CommitErr<D>>
        requires calls { (D.view self.disk).time + 6 ≤ COUNT_LIMIT }

        // The core holds what the disk stands for, as behind a commit.
        requires held { (u : OnDisk) → Stands self.id (D.view self.disk).reads u → stored_of core.now ≡ u.content }
        requires agrees { Agrees (stored_of core.now) }

        ensures ends { (u : OnDisk) → Stands self.id (D.view self.disk).reads u →
            Moves D.view self u (checkpointed u) result }

        // At each moment every image stands for this state, in the records before or in the new one.
        ensures moments { (u : OnDisk) → Stands self.id (D.view self.disk).reads u →
            EachMoment D.view (λ s. s.disk) (IsEither self.id u (checkpointed u)) (D.view self.disk) result }
    {
        checkpoints_are_exact();
        let alloc = core.alloc();
        match self.next_record(alloc, core) {
            Ok(body) => self.restart(alloc, &body),
            Err(_) => Err(CommitErr::NoMemory(self.into_disk())),
        }
    }

    // The checkpoint that is next.
    fn next_record(&self, alloc: Global, core: &Core) -> Result<Vec<u8>, NoMemory>
        ensures small { OnOk result ((u : OnDisk) → Stands self.now.id (D.view self.now.disk).reads u →
            IsNumber (suc u.generation)) }
        ensures spelled { IfOk result (λ bytes. (u : OnDisk) → Stands self.now.id (D.view self.now.disk).reads u →
            bytes.items ≡ spelled_checkpoint (suc u.generation) core.now) }
        ensures within { OnOk result (IsStored core.now) }
        ensures short { IfOk result (λ bytes. length bytes.items < LIST_LIMIT) }
    {
        // more checkpoints than any run makes
        if self.generation >= NUMBER_LIMIT - 1 {
            return Err(NoMemory);
        }
        checkpoint_record(alloc, self.generation + 1, core)
    }

    fn restart(self, alloc: Global, body: &[u8]) -> Result<Store<D>, CommitErr<D>>
        requires calls { (D.view self.disk).time + 6 ≤ COUNT_LIMIT }
        requires short { length body.now < LIST_LIMIT }
        requires small { (u : OnDisk) → Stands self.id (D.view self.disk).reads u → IsNumber (suc u.generation) }
        requires saved { (u : OnDisk) → Stands self.id (D.view self.disk).reads u →
            checkpoint_in self.id body.now ≡ Some (record { generation = suc u.generation; content = u.content }) }
        ensures ends { (u : OnDisk) → Stands self.id (D.view self.disk).reads u →
            Moves D.view self u (moved u body.now) result }
        ensures moments { (u : OnDisk) → Stands self.id (D.view self.disk).reads u →
            EachMoment D.view (λ s. s.disk) (IsEither self.id u (moved u body.now)) (D.view self.disk) result }
    {
        let Store {
            journal,
            id,
            side,
            generation,
            values,
            unwritten,
        } = self;
        let side = other(side);
        match journal.restart(alloc, side, body) {
            Ok(journal) => Ok(Store {
                journal,
                id,
                side,
                generation: generation + 1,
                values,
                unwritten,
            }),
            Err(fault) => Err(commit_fault(fault)),
        }
    }

    /// The store of a new disk, which stands for what the core holds, in seven device calls. After an error the disk may be
    /// no store.
    pub fn create(disk: D, core: &Core) -> Result<Store<D>, CommitErr<D>>
        requires calls { (D.view disk).time + 7 ≤ COUNT_LIMIT }
        requires agrees { Agrees (stored_of core.now) }
        ensures { Creates D.view core.now.id (created (stored_of core.now)) (D.view disk) result }
    {
        checkpoints_are_exact();
        let alloc = core.alloc();
        match first_record(alloc, core) {
            Ok((values, body)) => Store::format(alloc, disk, core.id(), values, &body),
            Err(_) => Err(CommitErr::NoMemory(disk)),
        }
    }

    /// A new disk of the older format, which stands for what the core holds, in seven device calls. No weight above 1 may
    /// stand in it. After an error the disk may be no store.
    pub fn create_old(disk: D, core: &Core) -> Result<D, CommitErr<D>>
        requires calls { (D.view disk).time + 7 ≤ COUNT_LIMIT }
        requires agrees { Agrees (stored_of core.now) }
        requires weights { has_weights core.now ≡ false }
        ensures { MakesOld D.view core.now.id (stored_of core.now) (D.view disk) result }
    {
        old_checkpoints_are_exact();
        let alloc = core.alloc();
        let body = match old_checkpoint(alloc, core) {
            Ok(body) => body,
            Err(_) => return Err(CommitErr::NoMemory(disk)),
        };
        match make_old(alloc, disk, &body) {
            Ok(disk) => Ok(disk),
            Err(fault) => Err(format_fault(fault)),
        }
    }

    fn format(
        alloc: Global,
        disk: D,
        id: ReplicaId,
        values: Stable,
        body: &[u8],
    ) -> Result<Store<D>, CommitErr<D>>
        requires calls { (D.view disk).time + 7 ≤ COUNT_LIMIT }
        requires short { length body.now < LIST_LIMIT }
        requires first { IsFirst id body.now values }
        ensures { (s : Stored) → IsSaved id body.now s → Creates D.view id (begun body.now s) (D.view disk) result }
    {
        match Journal::format(disk) {
            Ok(journal) => Store::first(alloc, journal, id, values, body),
            Err(FormatErr::Lost(disk)) => Err(CommitErr::Lost(disk)),
            Err(FormatErr::NoMemory(disk)) => Err(CommitErr::NoMemory(disk)),
        }
    }

    // Writes the first checkpoint.
    fn first(
        alloc: Global,
        journal: Journal<D>,
        id: ReplicaId,
        values: Stable,
        body: &[u8],
    ) -> Result<Store<D>, CommitErr<D>>
        requires calls { (D.view journal).time + 4 ≤ COUNT_LIMIT }
        requires empty { records (D.view journal).reads ≡ Some no_records }
        requires short { length body.now < LIST_LIMIT }
        requires first { IsFirst id body.now values }
        ensures { (s : Stored) → IsSaved id body.now s → Begins D.view id (begun body.now s) (D.view journal) result }
    {
        match journal.append(alloc, Side::A, body) {
            Ok(journal) => Ok(Store {
                journal,
                id,
                side: Side::A,
                generation: 1,
                values,
                unwritten: Limited::new(alloc),
            }),
            Err(fault) => Err(commit_fault(fault)),
        }
    }

    /// Opens the disk of a replica, with what it held at its last commit. A disk of the older format goes over to the newer
    /// one. `NotAStore` says that the disk stands for no state of this replica.
    pub fn open(alloc: Global, disk: D, id: ReplicaId) -> Result<(Store<D>, Core), OpenErr<D>>
        requires { (D.view disk).time + 16 ≤ COUNT_LIMIT }
        ensures { OpensStore D.view id (D.view disk) result }
    {
        match MixedJournal::open(alloc, disk) {
            Ok((journal, a, b)) => Store::open_sides(alloc, journal, id, a, b),
            Err(fault) => Err(read_fault(fault)),
        }
    }

    // The store of a disk on whose sides this was found.
    fn open_sides(
        alloc: Global,
        journal: MixedJournal<D>,
        id: ReplicaId,
        a: SideRecords,
        b: SideRecords,
    ) -> Result<(Store<D>, Core), OpenErr<D>>
        requires calls { (D.view journal).time + 11 ≤ COUNT_LIMIT }
        requires found { sides (D.view journal).reads ≡ Some (record { a = a; b = b }) }
        requires rest { IsAtRest (D.view journal) }
        ensures { ComesUp D.view id journal result }
    {
        let version_a = a.version;
        let version_b = b.version;
        match find_on(alloc, id, a, b) {
            Ok(Some(found)) => Store::come_up(alloc, journal, id, found, version_a, version_b),
            Ok(None) => Err(OpenErr::NotAStore(journal.into_disk())),
            Err(_) => Err(OpenErr::NoMemory(journal.into_disk())),
        }
    }

    // The store of a disk that stands for what was found, and whose sides are of these versions.
    fn come_up(
        alloc: Global,
        journal: MixedJournal<D>,
        id: ReplicaId,
        found: OpenedSide,
        a: u8,
        b: u8,
    ) -> Result<(Store<D>, Core), OpenErr<D>>
        requires calls { (D.view journal).time + 11 ≤ COUNT_LIMIT }
        requires found { IsAtHand found a b (D.view journal) }
        requires values { found.values ≡ stable_of found.core }
        requires owner { found.core.id ≡ id }
        ensures { ComesUp D.view id journal result }
    {
        match settle(alloc, journal, &found, a, b) {
            Ok(settled) => {
                let Settled {
                    journal,
                    side,
                    generation,
                } = settled;
                let OpenedSide { values, core, .. } = found;
                let store = Store {
                    journal,
                    id,
                    side,
                    generation,
                    values,
                    unwritten: Limited::new(alloc),
                };
                Ok((store, core))
            }
            Err(fault) => {
                drop(found);
                Err(move_fault(fault))
            }
        }
    }

    /// The side in use is so long that a checkpoint is to follow. It takes no memory.
    pub fn is_long(&self) -> bool
        ensures { (u : OnDisk) → Stands self.now.id (D.view self.now.disk).reads u → result ≡ nat_lt size_limit u.size }
    {
        self.journal.length(self.side) > CHECKPOINT_BYTES
    }

    /// Keeps the red marks of a recovery for the next record; nothing else of the event counts.
    pub fn keep(self, draft: Draft) -> Result<Store<D>, CommitErr<D>>
        ensures { KeepsMarks self draft.known result }
    {
        self.keep_marks(draft.into_parts().known)
    }

    /// Whose store it is. It takes no memory.
    pub fn id(&self) -> ReplicaId
        ensures { result ≡ self.now.id }
    {
        self.id
    }

    /// The disk stands for a state of this replica, and nothing on it is unsynced. It does nothing.
    pub fn holds(&self)
        ensures stands { (u : OnDisk) × Stands self.now.id (D.view self.now.disk).reads u }
        ensures rest { IsAtRest (D.view self.now.disk) }
    {
        let _journal = &self.journal;
    }

    /// Its disk. It takes no memory.
    pub fn into_disk(self) -> D
        ensures disk { result ≡ self.disk }

        // Nothing is unsynced between two calls.
        ensures rest { IsAtRest (D.view self.disk) }
    {
        let Store {
            journal,
            id: _,
            side: _,
            generation: _,
            values: _,
            unwritten: _,
        } = self;
        journal.into_disk()
    }

    /// The disk's `begin`. It takes no memory.
    pub fn begin(&mut self)
        ensures disk { DiskBegins (D.view self.old.disk) (D.view self.new.disk) }
        ensures id { self.new.id ≡ self.old.id }
        ensures unwritten { self.new.unwritten ≡ self.old.unwritten }
    {
        self.journal.begin();
    }
}

/// The four calls of a disk in memory, passed on to it.
impl Store<ModelDisk> {
    ghost use Rattle.cg_disk.specs.State.{Fails, Stops};
    ghost use Rattle.cg_disk.specs.Crashes.{Arms, Disarms};

    /// Arms the nth next device call, n at least 1, to fail once.
    pub fn fail_at(&mut self, n: u64)
        requires { 1 ≤ n }
        ensures disk { Arms Fails n (⟦<ModelDisk as Disk>⟧.view self.old.disk)
            (⟦<ModelDisk as Disk>⟧.view self.new.disk) }
        ensures id { self.new.id ≡ self.old.id }
        ensures unwritten { self.new.unwritten ≡ self.old.unwritten }
    {
        self.journal.fail_at(n);
    }

    /// Arms a stop inside the nth next device call, n at least 1.
    pub fn stop_at(&mut self, n: u64)
        requires { 1 ≤ n }
        ensures disk { Arms Stops n (⟦<ModelDisk as Disk>⟧.view self.old.disk)
            (⟦<ModelDisk as Disk>⟧.view self.new.disk) }
        ensures id { self.new.id ≡ self.old.id }
        ensures unwritten { self.new.unwritten ≡ self.old.unwritten }
    {
        self.journal.stop_at(n);
    }

    /// Nothing is armed any more.
    pub fn disarm(&mut self)
        ensures disk { Disarms (⟦<ModelDisk as Disk>⟧.view self.old.disk) (⟦<ModelDisk as Disk>⟧.view self.new.disk) }
        ensures id { self.new.id ≡ self.old.id }
        ensures unwritten { self.new.unwritten ≡ self.old.unwritten }
    {
        self.journal.disarm();
    }

    /// The device calls made so far.
    pub fn calls(&self) -> u64
        ensures { result ≡ (⟦<ModelDisk as Disk>⟧.view self.now.disk).time }
    {
        self.journal.calls()
    }
}
