ghost use Rattle.std.specs.Prelude.{◌≡◌, ◌==◌, [], find, fold, position, IfOk, OnOk};
ghost use Rattle.std.specs.Option.{option_copied};
ghost use Rattle.cg_model.specs.Show.{is_news, with_printed};

use cg_base::{NoMemory, ReplicaId};
use cg_report::{Line, UpLine, View};
use std::alloc::Global;
use std::marker::Model;

/// The last printed line of each replica.
pub struct Lines {
    list: Vec<Line>,
}

impl Drop for Lines {
    fn drop(self) {
        let Lines { list: _ } = self;
    }
}

impl Model for Lines {
    ghost use Rattle.std.specs.Prelude.{List};
    ghost use Rattle.cg_report.specs.declared.line.Line.{Line};

    ghost Value = { List Line };

    ghost view = { λ l. l.list.items };
}

impl Lines {
    /// No line was printed yet.
    pub fn new(alloc: Global) -> Lines
        ensures { result ≡ [] }
    {
        Lines {
            list: Vec::new(alloc),
        }
    }

    /// These lines are the last printed ones of their replicas.
    pub fn print_all(&mut self, printed: &[Line]) -> Result<(), NoMemory>
        ensures { OnOk result (self.new ≡ fold with_printed self.old printed.now) }
    {
        for line in printed {
            let alloc = *self.list.allocator();
            self.put(copy_line(alloc, line)?)?;
        }
        Ok(())
    }

    /// The line differs from the last printed one of its replica. It takes no memory.
    pub fn is_news(&self, line: &Line) -> bool
        ensures { result ≡ is_news self.now line.now }
    {
        match self.last(line.id) {
            Some(old) => line != old,
            None => true,
        }
    }

    /// The last printed line of a replica. It takes no memory.
    pub fn last(&self, p: ReplicaId) -> Option<&Line>
        ensures { option_copied result ≡ find (λ old. old.id == p) self.now }
    {
        self.list.as_slice().iter().find(|old| old.id == p)
    }

    // The line is the last printed one of its replica.
    fn put(&mut self, new: Line) -> Result<(), NoMemory>
        ensures { OnOk result (self.new ≡ with_printed self.old new) }
    {
        let id = new.id;
        match index_of(self.list.as_slice(), id) {
            Some(index) => {
                self.list[index] = new;
                Ok(())
            }
            None => {
                self.list.push(new)?;
                Ok(())
            }
        }
    }
}

// Where the replica's line stands, from 0.
fn index_of(lines: &[Line], p: ReplicaId) -> Option<usize>
    ensures { result ≡ position (λ l. l.id == p) lines.now }
{
    lines.iter().position(|line| line.id == p)
}

fn copy_line(alloc: Global, line: &Line) -> Result<Line, NoMemory>
    ensures { IfOk result (λ l. l ≡ line.now) }
{
    let up = match &line.up {
        Some(up) => Some(copy_up(alloc, up)?),
        None => None,
    };
    Ok(Line { id: line.id, up })
}

fn copy_up(alloc: Global, up: &UpLine) -> Result<UpLine, NoMemory>
    ensures { IfOk result (λ u. u ≡ up.now) }
{
    Ok(UpLine {
        state: up.state,
        phase: up.phase,
        view: copy_view(alloc, &up.view)?,
    })
}

fn copy_view(alloc: Global, view: &View) -> Result<View, NoMemory>
    ensures { IfOk result (λ v. v ≡ view.now) }
{
    Ok(View {
        green_count: view.green_count,
        white_count: view.white_count,
        prim: view.prim,
        attempt_index: view.attempt_index,
        vulnerable: view.vulnerable,
        yellow: view.yellow.copy(alloc)?,
        reds: view.reds.copy(alloc)?,
        own: view.own.copy(alloc)?,
        left: view.left,
        buffered: view.buffered,
    })
}
