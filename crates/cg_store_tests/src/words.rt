//! What faults say: no clause does.

use crate::table::{is, say, say_shown};
use cg_base::ReplicaId;
use cg_disk::ModelDisk;
use cg_join::{JoinErr, SnapshotName};
use cg_store::{CommitErr, OpenErr};

const COMMITS: &str = "a device call failed; memory was refused;";

const OPENINGS: &str =
    "a device call failed; the disk stands for no state of this replica; memory was refused;";

const PIECES: &str = "the bytes at 120 are of no piece
the piece is one of another snapshot
piece 2 came where piece 1 is the next
memory was refused
";

fn say_commit(out: &mut Vec<u8>, fault: CommitErr<ModelDisk>, end: &str) {
    say_shown(out, &fault);
    drop(fault);
    say(out, end);
}

fn say_opening(out: &mut Vec<u8>, fault: OpenErr<ModelDisk>, end: &str) {
    say_shown(out, &fault);
    drop(fault);
    say(out, end);
}

#[test]
fn commits_have_words(rt: HostRuntime) {
    let mut out = Vec::new(rt.alloc());
    say_commit(&mut out, CommitErr::Lost(ModelDisk::new(rt.alloc())), "; ");
    say_commit(
        &mut out,
        CommitErr::NoMemory(ModelDisk::new(rt.alloc())),
        ";",
    );
    is(&rt, out.as_slice(), COMMITS, "");
}

#[test]
fn openings_have_words(rt: HostRuntime) {
    let mut out = Vec::new(rt.alloc());
    say_opening(&mut out, OpenErr::Lost(ModelDisk::new(rt.alloc())), "; ");
    say_opening(
        &mut out,
        OpenErr::NotAStore(ModelDisk::new(rt.alloc())),
        "; ",
    );
    say_opening(&mut out, OpenErr::NoMemory(ModelDisk::new(rt.alloc())), ";");
    is(&rt, out.as_slice(), OPENINGS, "");
}

fn name(number: u64) -> SnapshotName {
    SnapshotName {
        giver: ReplicaId::known(1),
        number,
    }
}

fn say_piece(out: &mut Vec<u8>, fault: JoinErr) {
    say_shown(out, &fault);
    say(out, "\n");
}

#[test]
fn pieces_have_words(rt: HostRuntime) {
    let mut out = Vec::new(rt.alloc());
    let (want, got) = (name(1), name(2));
    say_piece(&mut out, JoinErr::BadPiece { at: 120 });
    say_piece(&mut out, JoinErr::OtherSnapshot { want, got });
    say_piece(&mut out, JoinErr::OutOfTurn { want: 1, got: 2 });
    say_piece(&mut out, JoinErr::NoMemory);
    is(&rt, out.as_slice(), PIECES, "");
}
