//! What faults say: no clause does.

use crate::table::{say, say_shown};
use cg_base::ReplicaId;
use cg_disk::{DiskFault, ModelDisk};
use cg_group::{GroupErr, Reason};
use cg_journal::{AppendErr, FormatErr, JournalOpen};
use cg_queue::QueueFault;
use std::fmt::Display;

const WORDS: &str =
    "the creator's action before this one isn't known: its last known one has index 3
the call isn't admitted: replica 7 isn't up
a device call failed
";

const JOURNALS: &str = "the disk is no journal
a device call failed
a device call failed
";

fn say_fault(out: &mut Vec<u8>, fault: &impl Display) {
    say_shown(out, fault);
    say(out, "\n");
}

#[test]
fn faults_have_words(rt: HostRuntime) {
    let mut out = Vec::new(rt.alloc());
    say_fault(&mut out, &QueueFault::Gap { cut: 3 });
    say_fault(
        &mut out,
        &GroupErr::Refused(Reason::NotUp(ReplicaId::known(7))),
    );
    say_fault(&mut out, &DiskFault::Failed);
    assert_eq!(rt; out.as_slice(), WORDS.as_bytes());
}

fn say_open(out: &mut Vec<u8>, fault: JournalOpen<ModelDisk>) {
    say_fault(out, &fault);
    drop(fault);
}

fn say_format(out: &mut Vec<u8>, fault: FormatErr<ModelDisk>) {
    say_fault(out, &fault);
    drop(fault);
}

fn say_append(out: &mut Vec<u8>, fault: AppendErr<ModelDisk>) {
    say_fault(out, &fault);
    drop(fault);
}

#[test]
fn faults_of_a_journal_have_words(rt: HostRuntime) {
    let mut out = Vec::new(rt.alloc());
    say_open(
        &mut out,
        JournalOpen::NotAJournal(ModelDisk::new(rt.alloc())),
    );
    say_format(&mut out, FormatErr::Lost(ModelDisk::new(rt.alloc())));
    say_append(&mut out, AppendErr::Lost(ModelDisk::new(rt.alloc())));
    assert_eq!(rt; out.as_slice(), JOURNALS.as_bytes());
}
