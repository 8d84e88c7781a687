//! What the parts of a snapshot bring, put together.
ghost use Rattle.std.specs.Prelude.{◌≡◌, fold, IfOk, OnOk};
ghost use Rattle.cg_base.specs.Lists.{Each};
ghost use Rattle.cg_join.specs.Limits.{IsPart};
ghost use Rattle.cg_join.specs.Gathered.{with_part, nothing, IsGathered};

use crate::{PieceContent, SnapshotHead};
use cg_action::{ActionList, Boxed};
use cg_base::{NoMemory, Row};
use cg_db::Db;
use std::alloc::Global;

/// The head, if there was one, the greens in their order, and the entries.
#[derive(Drop)]
pub(crate) struct Gathered {
    pub(crate) head: Option<Boxed<SnapshotHead>>,
    pub(crate) greens: ActionList,
    pub(crate) db: Db,
}

pub(crate) fn gather(alloc: Global, parts: Vec<PieceContent>) -> Result<Gathered, NoMemory>
    requires { Each IsPart parts.items }
    ensures value { IfOk result (λ g. g ≡ fold with_part nothing parts.items) }
    ensures within { IfOk result IsGathered }
{
    let mut gathered = Gathered {
        head: None,
        greens: Row::new(alloc),
        db: Db::new(alloc),
    };
    for part in parts {
        add(alloc, &mut gathered, part)?;
    }
    Ok(gathered)
}

fn add(alloc: Global, gathered: &mut Gathered, part: PieceContent) -> Result<(), NoMemory>
    ensures { OnOk result (gathered.new ≡ with_part gathered.old part) }
{
    match part {
        PieceContent::Start(head) => {
            gathered.head = Some(head);
            Ok(())
        }
        PieceContent::Green(action) => {
            let action = action.get().copy(alloc)?;
            gathered.greens.push(action)
        }
        PieceContent::Entry(entry) => gathered.db.put(entry.key, entry.value),
        PieceContent::End => Ok(()),
    }
}
