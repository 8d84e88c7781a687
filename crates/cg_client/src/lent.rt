//! What a replica holds in lists and maps, lent: a checkpoint copies none of it.
ghost use Rattle.std.specs.Prelude.{◌≡◌};
ghost use Rattle.cg_client.specs.Kept.{AreKept};
ghost use Rattle.cg_db.specs.Limits.{AreEntries};

use crate::Core;
use cg_db::Db;
use cg_queue::Queue;

impl Core {
    /// The actions that it knows.
    pub fn queue(&self) -> &Queue
        ensures value { result.now ≡ self.now.queue }
        ensures kept { AreKept self.now.queue }
    {
        self.held.queue.queue()
    }

    /// What the greens have made of the database.
    pub fn db(&self) -> &Db
        ensures value { result.now ≡ self.now.db }
        ensures limits { AreEntries self.now.db }
    {
        self.held.db.db()
    }
}
