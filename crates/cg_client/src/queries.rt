//! Queries that aren't ordered, and what a replica shows of itself.
ghost use Rattle.std.specs.Prelude.{◌≡◌, IfOk};
ghost use Rattle.cg_client.specs.Queries.{weak_answer, dirty_answer, view_of};

use crate::overlay::answer_behind;
use crate::{Core, actions_named, add_plain_reds, plain_names};
use cg_action::{Answer, Query};
use cg_base::NoMemory;
use cg_records::Yellow;
use cg_report::View;

impl Core {
    /// What the greens answer.
    pub fn weak(&self, q: &Query) -> Result<Answer, NoMemory>
        ensures { IfOk result (λ found. found ≡ weak_answer self.now q.now) }
    {
        self.held.db.answer(q)
    }

    /// What all actions that the replica knows answer. It copies the red actions and, of the database, what stands at the
    /// keys that they name.
    pub fn dirty(&self, q: &Query) -> Result<Answer, NoMemory>
        ensures { IfOk result (λ found. found ≡ dirty_answer self.now q.now) }
    {
        let yellow = self.held.queue.yellow()?;
        let mut actions = actions_named(self.held.alloc, &self.held.queue, yellow.as_slice())?;
        add_plain_reds(&self.held.queue, &mut actions)?;
        answer_behind(self.held.alloc, self.held.db.db(), actions, q)
    }

    /// What its line shows. It copies names alone.
    #[tactic(auto, unfolding(crate::specs::Queries::view_of))]
    pub fn view(&self) -> Result<View, NoMemory>
        ensures { IfOk result (λ v. v ≡ view_of self.now) }
    {
        let list = self.held.queue.yellow()?;
        Ok(View {
            green_count: self.held.queue.green_count(),
            white_count: self.held.queue.white_count(),
            prim: self.held.components.prim(),
            attempt_index: self.held.components.attempt_index(),
            vulnerable: self.held.components.vulnerable(),
            reds: plain_names(&self.held.queue)?,
            yellow: Yellow {
                valid: self.held.yellow_valid,
                list,
            },
            own: self.held.own.names(self.held.alloc)?,
            left: self.held.members.left(),
            buffered: self.held.buffered.len() as u64,
        })
    }
}
