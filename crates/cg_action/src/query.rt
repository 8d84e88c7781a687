ghost use Rattle.std.specs.Prelude.{◌≡◌, IfOk};

use cg_base::NoMemory;
use cg_text::Txt;
use std::alloc::Global;

/// A question to the database.
#[derive(PartialEq, Eq)]
pub enum Query {
    /// The value of the key.
    Get(Txt),
    /// The keys that begin with the text, which has 0 to 64 bytes.
    Keys(Txt),
    /// The number of keys.
    Count,
}

impl Drop for Query {
    fn drop(self) {
        match self {
            Query::Get(_) => {}
            Query::Keys(_) => {}
            Query::Count => {}
        }
    }
}

impl Query {
    /// Another query that is the same.
    pub fn copy(&self, alloc: Global) -> Result<Query, NoMemory>
        ensures { IfOk result (λ query. query ≡ self.now) }
    {
        match self {
            Query::Get(key) => Ok(Query::Get(key.copy(alloc)?)),
            Query::Keys(prefix) => Ok(Query::Keys(prefix.copy(alloc)?)),
            Query::Count => Ok(Query::Count),
        }
    }
}

/// Another query that is the same, or none.
pub fn copy_query(alloc: Global, query: &Option<Query>) -> Result<Option<Query>, NoMemory>
    ensures { IfOk result (λ copy. copy ≡ query.now) }
{
    match query {
        Some(query) => Ok(Some(query.copy(alloc)?)),
        None => Ok(None),
    }
}
