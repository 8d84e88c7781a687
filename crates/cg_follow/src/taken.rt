ghost use Rattle.std.specs.Prelude.{◌≡◌, OnOk};
ghost use Rattle.cg_action.specs.ActionLimits.{IsAction};
ghost use Rattle.cg_base.specs.Lists.{Each};
ghost use Rattle.cg_db.specs.Apply.{fold_actions_from};

use cg_action::Action;
use cg_base::NoMemory;
use cg_db::Db;
use std::marker::Model;

/// What was taken of the global order: how many actions, and the database that they make.
pub(crate) struct Taken {
    pub(crate) cursor: u64,
    pub(crate) db: Db,
}

impl Drop for Taken {
    fn drop(self) {
        let Taken { cursor: _, db: _ } = self;
    }
}

impl Model for Taken {
    ghost use Rattle.cg_follow.specs.Followed.{Followed};

    ghost Value = { Followed };

    ghost view = { λ t. record { cursor = t.cursor; db = t.db } };
}

impl Taken {
    ghost use Rattle.cg_follow.specs.Followed.{fed};

    /// Takes the next actions. Where memory is refused some of them may have been applied.
    pub(crate) fn take(&mut self, actions: &[Action]) -> Result<(), NoMemory>
        requires { Each IsAction actions.now }
        ensures { OnOk result (self.new ≡ fed self.old actions.now) }
    {
        // no disk has so many actions
        let Some(cursor) = self.cursor.checked_add(actions.len() as u64) else {
            return Err(NoMemory);
        };
        apply_all(&mut self.db, actions)?;
        self.cursor = cursor;
        Ok(())
    }
}

fn apply_all(db: &mut Db, actions: &[Action]) -> Result<(), NoMemory>
    requires { Each IsAction actions.now }
    ensures { OnOk result (db.new ≡ fold_actions_from db.old actions.now) }
{
    for action in actions {
        db.apply(action)?;
    }
    Ok(())
}
