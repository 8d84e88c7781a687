ghost use Rattle.std.specs.Prelude.{◌≡◌, ◌<◌, IsTrue, None, IfOk};
ghost use Rattle.cg_records.specs.Limits.{IsNumber, IsPrimary, IsMaybeVulnerable};

use cg_base::{NUMBER_LIMIT, NoMemory, WeightSet};
use cg_records::{Primary, Vulnerable};
use std::marker::Model;

/// What is known of primary components: the last one, how many attempts there were since, and the record of an attempt
/// that others may have installed. Its numbers are below 2 ^ 63.
pub struct Components {
    prim: Primary,
    attempt_index: u64,
    vulnerable: Option<Vulnerable>,
}

impl Drop for Components {
    fn drop(self) {
        let Components {
            prim: _,
            attempt_index: _,
            vulnerable: _,
        } = self;
    }
}

impl Model for Components {
    ghost use Rattle.cg_client.specs.Components.{ComponentsView, AreComponents};

    ghost Value = { ComponentsView };

    ghost view = { λ s. record { prim = s.prim; attempt_index = s.attempt_index; vulnerable = s.vulnerable } };

    ghost invariant = { λ s. AreComponents (record { prim = s.prim; attempt_index = s.attempt_index; vulnerable = s.vulnerable }) };
}

/// The number has bytes: it is below 2 ^ 63.
pub fn is_number(n: u64) -> bool
    ensures { IsTrue result → IsNumber n }
{
    n < NUMBER_LIMIT
}

fn is_prim(prim: &Primary) -> bool
    ensures { IsTrue result → IsPrimary prim.now }
{
    prim.set.holds();
    is_number(prim.index) && is_number(prim.conf)
}

fn is_record(v: &Option<Vulnerable>) -> bool
    ensures { IsTrue result → IsMaybeVulnerable v.now }
{
    match v {
        None => true,
        Some(v) => {
            v.set.holds();
            v.bits.holds();
            is_number(v.attempt) && is_number(v.from)
        }
    }
}

impl Components {
    /// Before the first primary component: these are its members.
    pub fn start(set: WeightSet) -> Components
        ensures { result ≡ record {
          prim = record { index = 0; conf = 0; set = set };
          attempt_index = 0;
          vulnerable = None;
        } }
    {
        set.holds();
        Components {
            prim: Primary {
                index: 0,
                conf: 0,
                set,
            },
            attempt_index: 0,
            vulnerable: None,
        }
    }

    /// What is known, from its parts. It takes no memory. A number too great for its bytes is refused.
    pub fn of(
        prim: Primary,
        attempt_index: u64,
        vulnerable: Option<Vulnerable>,
    ) -> Result<Components, NoMemory>
        ensures { IfOk result (λ s. s ≡ record {
          prim = prim;
          attempt_index = attempt_index;
          vulnerable = vulnerable;
        }) }
    {
        if !is_prim(&prim) {
            return Err(NoMemory);
        }
        if !is_number(attempt_index) {
            return Err(NoMemory);
        }
        if !is_record(&vulnerable) {
            return Err(NoMemory);
        }
        Ok(Components {
            prim,
            attempt_index,
            vulnerable,
        })
    }

    /// The last known primary component.
    pub fn prim(&self) -> Primary
        ensures value { result ≡ self.now.prim }
        ensures limits { IsPrimary self.now.prim }
    {
        self.prim
    }

    /// How many attempts there were since.
    pub fn attempt_index(&self) -> u64
        ensures value { result ≡ self.now.attempt_index }
        ensures limits { IsNumber self.now.attempt_index }
    {
        self.attempt_index
    }

    /// The record of an attempt that others may have installed.
    pub fn vulnerable(&self) -> Option<Vulnerable>
        ensures value { result ≡ self.now.vulnerable }
        ensures limits { IsMaybeVulnerable self.now.vulnerable }
    {
        self.vulnerable
    }

    /// The record goes.
    pub fn forget_record(&mut self)
        ensures { self.new ≡ record self.old { vulnerable = None } }
    {
        self.vulnerable = None;
    }
}
