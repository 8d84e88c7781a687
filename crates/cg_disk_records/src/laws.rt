ghost use Rattle.std.specs.Prelude.{◌≡◌, ℕ, true, List, [], Some};
ghost use Rattle.cg_base.specs.Sets.{IsId};
ghost use Rattle.cg_codec.specs.Fields.{list};
ghost use Rattle.cg_codec.specs.Laws.{AreBytes, IsField, IsWhole, IsFrontOfNoOther};
ghost use Rattle.cg_action.specs.Bytes.{spelled_action};
ghost use Rattle.cg_db.specs.Limits.{IsEntry};
ghost use Rattle.cg_disk_records.specs.declared.change.Change.{Change};
ghost use Rattle.cg_disk_records.specs.declared.checkpoint.Checkpoint.{Checkpoint};
ghost use Rattle.cg_disk_records.specs.Stored.{Stored};
ghost use Rattle.cg_disk_records.specs.Change.{spelled_change};
ghost use Rattle.cg_disk_records.specs.Checkpoint.{spelled_entry, spelled_reached, spelled_parts};
ghost use Rattle.cg_disk_records.specs.Limits.{AreActions, IsChange, IsDatabase, IsReached, AreParts};
ghost use Rattle.cg_disk_records.specs.Reading.{actions_reading, change_reading, entry_reading, entries_reading, reached_reading, checkpoint_reading};
ghost use Rattle.cg_disk_records.specs.Parts.{Fits, do_agree, change_in, Saved, checkpoint_in};
ghost use Rattle.cg_disk_records.specs.Laws.{IsCheckpoint};

/// Changes are exactly their spellings: each one within the limits is read again as it was spelled, what is read is one
/// within the limits, spelled so, and no spelling is the front of another one's.
pub fn changes_are_exact()
    ensures field { IsField IsChange spelled_change change_reading }
    ensures whole { IsWhole IsChange spelled_change change_reading }
    ensures again { (c : Change) → IsChange c → change_in (spelled_change c) ≡ Some c }
    ensures found { (c : Change) (bytes : List ℕ) → AreBytes bytes → change_in bytes ≡ Some c →
        IsChange c × (bytes ≡ spelled_change c) }
    ensures apart { IsFrontOfNoOther IsChange spelled_change }
{}

/// The same of lists of actions, of the entries of a database, and of an entry with any key.
pub fn lists_are_exact()
    ensures actions { IsField AreActions (list spelled_action) actions_reading }
    ensures entries { IsField IsDatabase (list spelled_entry) entries_reading }
    ensures entry { IsField IsEntry spelled_entry (entry_reading []) }
{}

/// The same of the parts of a checkpoint, whether they agree or not, and of how far greens reach.
pub fn parts_are_exact()
    ensures reached { IsField IsReached spelled_reached reached_reading }
    ensures field { IsField AreParts spelled_parts checkpoint_reading }
    ensures whole { IsWhole AreParts spelled_parts checkpoint_reading }
    ensures apart { IsFrontOfNoOther AreParts spelled_parts }
{}

/// The test of parts says that they are those of a checkpoint of this replica.
pub fn agreement_is_tested()
    ensures fits { (id : ℕ) (p : Checkpoint) → AreParts p → do_agree id p ≡ true → Fits id p }
    ensures agree { (id : ℕ) (p : Checkpoint) → AreParts p → Fits id p → do_agree id p ≡ true }
{}

/// Bytes are read as the checkpoint that they are, and as no other; so bytes stand for one state alone.
pub fn checkpoints_are_exact()
    ensures again { (id : ℕ) (bytes : List ℕ) (generation : ℕ) (s : Stored) → IsCheckpoint id bytes generation s →
        checkpoint_in id bytes ≡ Some (record { generation = generation; content = s }) }
    ensures found { (id : ℕ) (bytes : List ℕ) (x : Saved) → IsId id → AreBytes bytes → checkpoint_in id bytes ≡ Some x →
        IsCheckpoint id bytes x.generation x.content }
    ensures one { (id : ℕ) (bytes : List ℕ) (g : ℕ) (h : ℕ) (s : Stored) (t : Stored) → IsCheckpoint id bytes g s →
        IsCheckpoint id bytes h t → (g ≡ h) × (s ≡ t) }
{}
