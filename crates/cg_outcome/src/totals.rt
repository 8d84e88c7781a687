ghost use Rattle.std.specs.Prelude.{◌≡◌, ◌+◌, ◌++◌, IfOk, OnOk};
ghost use Rattle.std.specs.Option.{option_map_or};
ghost use Rattle.cg_outcome.specs.Totals.{no_totals, greatest_index, with_entry, counted, summary_text};

use cg_base::{NoMemory, put, put_number};
use cg_report::{Entry, Line};

/// What the entries of a run have shown: how many actions were made, and how many reached the global order, the greatest
/// index of a primary component, and how many replies were given.
#[derive(Clone, Copy, Debug)]
pub struct Totals {
    pub made: u64,
    pub ordered: u64,
    pub prim_index: u64,
    pub replies: u64,
}

fn add(n: u64, more: usize) -> Result<u64, NoMemory>
    ensures { IfOk result (λ sum. sum ≡ n + more) }
{
    n.checked_add(more as u64).ok_or(NoMemory)
}

fn index_of(line: &Line) -> u64
    ensures { result ≡ option_map_or (λ up. up.view.prim.index) line.now.up 0 }
{
    match &line.up {
        Some(up) => up.view.prim.index,
        None => 0,
    }
}

fn greatest_index(before: u64, lines: &[Line]) -> u64
    ensures { result ≡ greatest_index before lines.now }
{
    let mut greatest = before;
    for line in lines {
        greatest = greatest.max(index_of(line));
    }
    greatest
}

impl Totals {
    /// Before the first entry.
    pub fn none() -> Totals
        ensures { result ≡ no_totals }
    {
        Totals {
            made: 0,
            ordered: 0,
            prim_index: 0,
            replies: 0,
        }
    }

    /// With what an entry shows.
    pub fn with_entry(&self, entry: &Entry) -> Result<Totals, NoMemory>
        ensures { IfOk result (λ totals. totals ≡ with_entry self.now entry.now) }
    {
        let made = add(self.made, entry.made.len())?;
        let ordered = add(self.ordered, entry.orders.len())?;
        let prim_index = greatest_index(self.prim_index, entry.lines.as_slice());
        let replies = add(self.replies, entry.replies.len())?;
        Ok(Totals {
            made,
            ordered,
            prim_index,
            replies,
        })
    }
}

fn put_counted(out: &mut Vec<u8>, word: &[u8], n: u64) -> Result<(), NoMemory>
    ensures { OnOk result (out.new.items ≡ out.old.items ++ counted word.now n) }
{
    put(out, word)?;
    put_number(out, n)?;
    put(out, b"\n")
}

/// The five lines of a summary, after so many steps.
pub fn put_summary(out: &mut Vec<u8>, steps: u64, totals: &Totals) -> Result<(), NoMemory>
    ensures { OnOk result (out.new.items ≡ out.old.items ++ summary_text steps totals.now) }
{
    put_counted(out, b"steps ", steps)?;
    put_counted(out, b"made ", totals.made)?;
    put_counted(out, b"ordered ", totals.ordered)?;
    put_counted(out, b"prim ", totals.prim_index)?;
    put_counted(out, b"replies ", totals.replies)
}
