//! The disk of a follower that is down.

ghost use Rattle.std.specs.Prelude.{◌≡◌, None, IfOk, IfSome};
ghost use Rattle.cg_follow.specs.Stands.{Stands};
ghost use Rattle.cg_follow.specs.Followed.{Followed};

use crate::running::Running;
use cg_base::{COUNT_LIMIT, NoMemory};
use cg_disk::{Disk, ModelDisk};
use cg_follow::{FollowOpen, Follower};
use std::alloc::Global;
use std::marker::Model;

// The device calls of an opening.
const OPENING_CALLS: u64 = 5;

/// A disk that stands for a follower, with nothing armed. Clauses see the follower.
pub(crate) struct FallenDisk {
    disk: ModelDisk,
}

impl Drop for FallenDisk {
    fn drop(self) {
        let FallenDisk { disk: _ } = self;
    }
}

impl Model for FallenDisk {
    ghost use Rattle.cg_follow.specs.Followed.{Followed};
    ghost use Rattle.cg_follower_list.specs.Disks.{standing, IsFallen};

    ghost Value = { Followed };

    ghost view = { λ d. standing (⟦<ModelDisk as Disk>⟧.view d.disk).reads };

    ghost invariant = { λ d. IsFallen (⟦<ModelDisk as Disk>⟧.view d.disk) };
}

impl FallenDisk {
    pub(crate) fn new(disk: ModelDisk) -> FallenDisk
        requires stands { (left : Followed) × Stands (⟦<ModelDisk as Disk>⟧.view disk).reads left }
        requires unarmed { IfSome (⟦<ModelDisk as Disk>⟧.view disk).state (λ s. s.strike ≡ None) }
        ensures { Stands (⟦<ModelDisk as Disk>⟧.view disk).reads result }
    {
        FallenDisk { disk }
    }

    /// The follower comes up as its disk left it.
    pub(crate) fn open(self, alloc: Global) -> Result<Running, NoMemory>
        ensures { IfOk result (λ r. r ≡ record { now = self; armed = None }) }
    {
        let FallenDisk { disk } = self;
        if disk.calls() > COUNT_LIMIT - OPENING_CALLS {
            return Err(NoMemory);
        }
        match Follower::open(alloc, disk) {
            Ok(follower) => Ok(Running::new(alloc, follower)),
            Err(FollowOpen::Lost(_)) => unreachable!(),
            Err(FollowOpen::NotAFollower(_)) => unreachable!(),
            Err(FollowOpen::NoMemory(_)) => Err(NoMemory),
        }
    }
}
