ghost use Rattle.std.specs.Prelude.{◌++◌, ◌≡◌, ◌<◌, OnOk, IfErr, Some, codes};
ghost use Rattle.cg_base.specs.declared.limits.TheConstants.{COUNT_LIMIT};
ghost use Rattle.cg_base.specs.Sets.{IsId};
ghost use Rattle.cg_gen.specs.Generated.{generated};
ghost use Rattle.cg_gen.specs.Lines.{lines_of};
ghost use Rattle.cg_outcome.specs.declared.status.Status.TheVariants as status;
ghost use Rattle.cg_items.specs.Items.{entry_in};
ghost use Rattle.cg_report.specs.EntryText.{body_text};
ghost use Rattle.cg_compare.specs.JoinText.{joined_text};
ghost use Rattle.cg_outcome.specs.Produced.{tail_in, logs_text};
ghost use Rattle.cg_outcome.specs.Stopping.{CutShort, IsFinding};
ghost use Rattle.cg_outcome.specs.Putting.{Puts, StopsWith};

use crate::item_text::put_item;
use crate::status::Status;
use crate::tail::put_tail;
use cg_base::{NoMemory, ReplicaId, put, put_shown};
use cg_compare::{Joined, LogList, join_logs};
use cg_gen::generate;
use cg_io::{IoFault, Sink};
use cg_items::{FurtherLine, Report};
use cg_json::json;
use cg_report::Entry;
use std::alloc::Global;

/// Room for the text of an entry, in bytes: most are shorter.
const ENTRY_ROOM: usize = 512;

/// Puts a text, unless it is empty.
pub fn put_text<K: Sink>(alloc: Global, output: &mut K, text: &[u8]) -> Result<(), Status>
    requires { (K.view output.old).faults < COUNT_LIMIT }
    ensures ok { OnOk result (Puts (K.view output.old) (K.view output.new) text.now) }
    ensures cut { IfErr result (λ status.
        CutShort text.now (K.view output.old) (K.view output.new) status) }
{
    if text.is_empty() {
        return Ok(());
    }
    match output.put(alloc, text) {
        Ok(()) => Ok(()),
        Err(IoFault::Failed) => Err(Status::WriteFault),
        Err(IoFault::NoMemory) => Err(Status::NoMemory),
    }
}

/// Ends a run with what was found behind so many steps and whole lines: puts the tail. What is answered is the status
/// found, unless the put was cut short.
pub fn finish<K: Sink>(
    alloc: Global,
    output: &mut K,
    report: Report,
    status: Status,
    steps: u64,
    lines: u64,
) -> Status
    requires few_faults { (K.view output.old).faults < COUNT_LIMIT }
    requires finding { IsFinding status }
    ensures { StopsWith (tail_in report status steps lines) (Some status)
        (K.view output.old) (K.view output.new) result }
{
    let mut text = Vec::new(alloc);
    if put_tail(&mut text, report, &status, steps, lines).is_err() {
        return Status::NoMemory;
    }
    match put_text(alloc, output, &text) {
        Ok(()) => status,
        Err(other) => other,
    }
}

/// Ends a run over logs that is done: puts what they come to together.
pub fn finish_logs<K: Sink>(alloc: Global, output: &mut K, logs: &LogList) -> Status
    requires { (K.view output.old).faults < COUNT_LIMIT }
    ensures { StopsWith (logs_text logs.now) (Some status.Done) (K.view output.old) (K.view output.new) result }
{
    let mut text = Vec::new(alloc);
    if put_logs(alloc, &mut text, logs).is_err() {
        return Status::NoMemory;
    }
    match put_text(alloc, output, &text) {
        Ok(()) => Status::Done,
        Err(other) => other,
    }
}

/// Ends an inspection that has seen a replica: puts what a recovery prints of it.
pub fn finish_inspection<K: Sink>(alloc: Global, output: &mut K, entry: &Entry) -> Status
    requires { (K.view output.old).faults < COUNT_LIMIT }
    ensures { StopsWith (body_text entry.now) (Some status.Done) (K.view output.old) (K.view output.new) result }
{
    let mut text = Vec::new(alloc);
    if put_shown(&mut text, entry).is_err() {
        return Status::NoMemory;
    }
    match put_text(alloc, output, &text) {
        Ok(()) => Status::Done,
        Err(other) => other,
    }
}

fn put_logs(alloc: Global, out: &mut Vec<u8>, logs: &LogList) -> Result<(), NoMemory>
    ensures { OnOk result (out.new.items ≡ out.old.items ++ logs_text logs.now) }
{
    let joined = join_logs(alloc, logs)?;
    put_joined(out, &joined)
}

fn put_joined(out: &mut Vec<u8>, joined: &Joined) -> Result<(), NoMemory>
    ensures { OnOk result (out.new.items ≡ out.old.items ++ (joined_text joined.now ++ codes "\n")) }
{
    put_shown(out, joined)?;
    put(out, b"\n")
}

/// Puts what an event shows in a report: its step, and the further lines behind it. Where that is nothing no text is built.
pub fn put_step<K: Sink>(
    alloc: Global,
    output: &mut K,
    report: Report,
    number: u64,
    entry: &Entry,
    lines: &[FurtherLine],
) -> Result<(), Status>
    requires { (K.view output.old).faults < COUNT_LIMIT }
    ensures ok { OnOk result (Puts (K.view output.old) (K.view output.new) (entry_in report number entry.now lines.now)) }
    ensures cut { IfErr result (λ status.
        CutShort (entry_in report number entry.now lines.now) (K.view output.old) (K.view output.new) status) }
{
    let mut text = Vec::new(alloc);
    if put_entry_in(&mut text, report, number, entry, lines).is_err() {
        return Err(Status::NoMemory);
    }
    put_text(alloc, output, &text)
}

fn put_entry_in(
    out: &mut Vec<u8>,
    report: Report,
    number: u64,
    entry: &Entry,
    lines: &[FurtherLine],
) -> Result<(), NoMemory>
    ensures { OnOk result (out.new.items ≡ out.old.items ++ entry_in report number entry.now lines.now) }
{
    match report {
        Report::Whole => {
            out.reserve(ENTRY_ROOM)?;
            put_item(out, number, entry, lines)
        }
        Report::Json => json(number, entry, out),
        Report::Tail => Ok(()),
        Report::Joined => Ok(()),
        Report::Inspected => Ok(()),
        Report::Imaged => Ok(()),
    }
}

/// Puts the schedule of a seed.
pub fn put_schedule<K: Sink>(
    alloc: Global,
    output: &mut K,
    seed: u64,
    replicas: u8,
    lines: u64,
) -> Status
    requires replicas { IsId replicas }
    requires few_faults { (K.view output.old).faults < COUNT_LIMIT }
    ensures { StopsWith (lines_of (generated seed replicas lines)) (Some status.Done) (K.view output.old)
        (K.view output.new) result }
{
    let Ok(schedule) = generate(alloc, seed, ReplicaId::known(replicas), lines) else {
        return Status::NoMemory;
    };
    match put_text(alloc, output, schedule.as_slice()) {
        Ok(()) => Status::Done,
        Err(other) => other,
    }
}
