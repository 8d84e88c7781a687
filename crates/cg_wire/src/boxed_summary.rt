ghost use Rattle.std.specs.Prelude.{◌≡◌, IfOk};

use cg_base::NoMemory;
use cg_knowledge::Summary;
use std::alloc::Global;
use std::marker::Model;

/// A summary in a place of its own, so that a message is hardly larger than an action. Clauses see the summary.
pub struct BoxedSummary {
    inner: Box<Summary>,
}

impl Drop for BoxedSummary {
    fn drop(self) {
        let BoxedSummary { inner: _ } = self;
    }
}

impl Model for BoxedSummary {
    ghost use Rattle.cg_knowledge.specs.declared.summary.Summary.{Summary};

    ghost Value = { Summary };

    ghost view = { λ b. b.inner.value };
}

impl BoxedSummary {
    pub fn new(alloc: Global, summary: Summary) -> Result<BoxedSummary, NoMemory>
        ensures { IfOk result (λ boxed. boxed ≡ summary) }
    {
        let inner = Box::new(alloc, summary)?;
        Ok(BoxedSummary { inner })
    }

    pub fn get(&self) -> &Summary
        ensures { result.now ≡ self.now }
    {
        &self.inner
    }
}
