//! Lists of commands.

ghost use Rattle.std.specs.Prelude.{◌≡◌, ◌∷◌, [], ◌++◌, IfOk, OnOk, OnErr};

use crate::Cmd;
use cg_base::NoMemory;
use cg_text::Txt;
use smallvec::SmallVec;
use std::alloc::Global;
use std::default::MadeWith;
use std::marker::Model;

/// Commands in the order in which they run. Clauses see the list of them. One alone lies in the value itself.
pub struct CmdList {
    cmds: SmallVec<Cmd, 1>,
}

impl Drop for CmdList {
    fn drop(self) {
        let CmdList { cmds: _ } = self;
    }
}

impl Model for CmdList {
    ghost use Rattle.std.specs.Prelude.{List};
    ghost use Rattle.cg_action.specs.declared.command.Cmd.{Cmd};

    ghost Value = { List Cmd };

    ghost view = { λ l. l.cmds.items };
}

// What stands in a place that no command has taken.
impl MadeWith<Global> for Cmd {
    fn made_with(alloc: Global) -> Cmd {
        Cmd::Del {
            key: Txt::empty(alloc),
        }
    }
}

impl CmdList {
    /// No commands.
    pub fn new(alloc: Global) -> CmdList
        ensures { result ≡ [] }
    {
        CmdList {
            cmds: SmallVec::new(alloc),
        }
    }

    /// This command alone. It takes no memory.
    pub fn one(alloc: Global, cmd: Cmd) -> CmdList
        ensures { result ≡ cmd ∷ [] }
    {
        CmdList {
            cmds: SmallVec::from_buf(alloc, [cmd]),
        }
    }

    /// No commands, with room for so many.
    pub fn with_capacity(alloc: Global, capacity: usize) -> Result<CmdList, NoMemory>
        ensures { IfOk result (λ list. list ≡ []) }
    {
        let cmds = SmallVec::with_capacity(alloc, capacity)?;
        Ok(CmdList { cmds })
    }

    /// Adds a command at the end. Where memory is refused nothing is changed.
    pub fn push(&mut self, cmd: Cmd) -> Result<(), NoMemory>
        ensures ok { OnOk result (self.new ≡ self.old ++ cmd ∷ []) }
        ensures err { OnErr result (self.new ≡ self.old) }
    {
        match self.cmds.push(cmd) {
            Ok(()) => Ok(()),
            Err(_) => Err(NoMemory),
        }
    }

    /// The commands in their order.
    pub fn as_slice(&self) -> &[Cmd]
        ensures { result.now ≡ self.now }
    {
        self.cmds.as_slice()
    }
}

impl PartialEq for CmdList {
    ghost use Rattle.std.specs.Cmp.Lexicographic.{pointwise, lists_per};
    ghost use Rattle.cg_action.specs.contracts.command.CmdPartialEq.TheImpl.Laws.{laws-law};

    ghost eq = { pointwise ⟦<Cmd as PartialEq>⟧.eq };

    ghost laws = { lists_per laws-law };

    fn eq(&self, other: &CmdList) -> bool {
        self.as_slice() == other.as_slice()
    }
}

impl Eq for CmdList {
    ghost use Rattle.std.specs.Cmp.Lexicographic.{lists_equiv};
    ghost use Rattle.cg_action.specs.contracts.command.CmdEq.TheImpl.Laws.{laws-law};

    ghost laws = { lists_equiv laws-law };
}

/// Other commands that are the same.
pub fn copy_commands(alloc: Global, cmds: &[Cmd]) -> Result<CmdList, NoMemory>
    ensures { IfOk result (λ list. list ≡ cmds.now) }
{
    match cmds {
        [cmd] => {
            let copy = cmd.copy(alloc)?;
            Ok(CmdList::one(alloc, copy))
        }
        _ => copy_each(alloc, cmds),
    }
}

fn copy_each(alloc: Global, cmds: &[Cmd]) -> Result<CmdList, NoMemory>
    ensures { IfOk result (λ list. list ≡ cmds.now) }
{
    let mut copies = CmdList::with_capacity(alloc, cmds.len())?;
    for cmd in cmds {
        copies.push(cmd.copy(alloc)?)?;
    }
    Ok(copies)
}
