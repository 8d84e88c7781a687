//! What is seen in the image of a replica's disk.
ghost use Rattle.std.specs.Prelude.{◌<◌, Some};
ghost use Rattle.cg_base.specs.declared.limits.TheConstants.{COUNT_LIMIT};
ghost use Rattle.cg_image.specs.Inspecting.{inspected};
ghost use Rattle.cg_items.specs.declared.report.Report.TheVariants.{Inspected as InspectedReport};
ghost use Rattle.cg_outcome.specs.Inspection.{Inspects};
ghost use Rattle.cg_outcome.specs.Outcome.{seen_in};
ghost use Rattle.cg_outcome.specs.Produced.{status_of, text_of};
ghost use Rattle.cg_outcome.specs.Putting.{StopsWith};
ghost use Rattle.cg_outcome.specs.declared.status.Status.TheVariants as status;
ghost use Rattle.cg_report.specs.EntryText.{body_text};

use cg_base::{NoMemory, put};
use cg_image::{Inspected, entries_tell_their_replica, inspect};
use cg_io::{Sink, Source};
use cg_outcome::{INPUT_BYTES, Limit, Report, Status, TAKE_BYTES, finish, finish_inspection};
use cg_report::Entry;
use std::alloc::Global;

// What is seen of a replica is put, and let go.
fn put_replica<K: Sink>(alloc: Global, output: &mut K, entry: Entry) -> Status
    requires { (K.view output.old).faults < COUNT_LIMIT }
    ensures { StopsWith (body_text entry) (Some status.Done) (K.view output.old) (K.view output.new) result }
{
    let status = finish_inspection(alloc, output, &entry);
    drop(entry);
    status
}

// What is seen in all bytes of an input.
fn put_seen<K: Sink>(alloc: Global, output: &mut K, bytes: &[u8]) -> Status
    requires { (K.view output.old).faults < COUNT_LIMIT }
    ensures { StopsWith (text_of InspectedReport (seen_in (inspected bytes.now)))
        (status_of (seen_in (inspected bytes.now))) (K.view output.old) (K.view output.new) result }
{
    entries_tell_their_replica();
    match inspect(alloc, bytes) {
        Ok(Inspected::NotAnImage) => {
            finish(alloc, output, Report::Inspected, Status::NotAnImage, 0, 0)
        }
        Ok(Inspected::NotAStore) => {
            finish(alloc, output, Report::Inspected, Status::NotAStore, 0, 0)
        }
        Ok(Inspected::Holds(entry)) => put_replica(alloc, output, entry),
        Err(NoMemory) => Status::NoMemory,
    }
}

/// Takes the whole input, and puts what is seen in it as the image of a replica's disk.
pub fn inspect_input<S: Source, K: Sink>(alloc: Global, input: &mut S, output: &mut K) -> Status
    requires few_read_faults { (S.view input.old).faults < COUNT_LIMIT }
    requires few_write_faults { (K.view output.old).faults < COUNT_LIMIT }
    ensures { Inspects (S.view input.old) (S.view input.new) (K.view output.old) (K.view output.new) result }
{
    let mut bytes = Vec::new(alloc);
    while bytes.len() <= INPUT_BYTES {
        let mut buffer = [0u8; TAKE_BYTES];
        let room = (INPUT_BYTES + 1 - bytes.len()).min(TAKE_BYTES);
        match input.take(&mut buffer[..room]) {
            Err(_) => return finish(alloc, output, Report::Inspected, Status::ReadFault, 0, 0),
            Ok(0) => return put_seen(alloc, output, bytes.as_slice()),
            Ok(count) => match put(&mut bytes, &buffer[..count]) {
                Ok(()) => {}
                Err(NoMemory) => return Status::NoMemory,
            },
        }
    }
    let status = Status::Limit {
        line: 0,
        what: Limit::Input,
    };
    finish(alloc, output, Report::Inspected, status, 0, 0)
}
