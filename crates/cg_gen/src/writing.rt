ghost use Rattle.std.specs.Prelude.{◌≡◌, ◌++◌, ◌∷◌, [], IfOk, OnOk};
ghost use Rattle.cg_gen.specs.Generated.{generated};
ghost use Rattle.cg_gen.specs.Lines.{lines_of};
ghost use Rattle.cg_schedule.specs.Print.{line_of};

use crate::Generator;
use cg_base::{Bytes, NoMemory, ReplicaId, put};
use cg_schedule::{Event, print_line};
use std::alloc::Global;

/// The lines of the schedule of a seed, of so many lines for the replicas from 1 to the given one.
pub fn generate(
    alloc: Global,
    seed: u64,
    replicas: ReplicaId,
    lines: u64,
) -> Result<Bytes, NoMemory>
    ensures { IfOk result (λ bytes. bytes ≡ lines_of (generated seed replicas lines)) }
{
    let mut generator = Generator::new(alloc, seed, replicas, lines)?;
    let mut out = Vec::new(alloc);
    put_lines(alloc, &mut generator, &mut out)?;
    Ok(Bytes::from_vec(out))
}

fn put_lines(alloc: Global, generator: &mut Generator, out: &mut Vec<u8>) -> Result<(), NoMemory>
    ensures { OnOk result (out.new.items ≡ out.old.items ++ lines_of generator.old) }
{
    while let Some(event) = generator.next(alloc)? {
        put_line(out, &event)?;
    }
    Ok(())
}

fn put_line(out: &mut Vec<u8>, event: &Event) -> Result<(), NoMemory>
    ensures { OnOk result (out.new.items ≡ out.old.items ++ (line_of event.now ++ 10 ∷ [])) }
{
    print_line(event, out)?;
    put(out, b"\n")
}
