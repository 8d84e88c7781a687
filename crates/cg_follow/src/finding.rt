//! What the records of a side stand for.

ghost use Rattle.std.specs.Prelude.{◌≡◌, drop, fold, Some, IfOk};
ghost use Rattle.cg_follow.specs.Stands.{follower_on, led_by};
ghost use Rattle.cg_follow.specs.Finding.{Follows};

use crate::records::{read_feed, read_follower};
use crate::taken::Taken;
use cg_base::NoMemory;
use cg_journal::Bodies;
use std::alloc::Global;

/// What the records stand for, if they stand for a follower.
pub(crate) fn find(alloc: Global, bodies: &Bodies) -> Result<Option<Taken>, NoMemory>
    ensures { IfOk result (λ found. found ≡ follower_on bodies.now) }
{
    let Some(body) = bodies.get(0) else {
        return Ok(None);
    };
    match read_follower(alloc, body)? {
        Some(taken) => take_feeds(alloc, taken, bodies),
        None => Ok(None),
    }
}

// what it comes to behind all records but the first, if these are feeds
fn take_feeds(alloc: Global, first: Taken, bodies: &Bodies) -> Result<Option<Taken>, NoMemory>
    ensures { IfOk result (λ found. found ≡ fold led_by (Some first) (drop 1 bodies.now)) }
{
    let mut taken = first;
    for i in 1..bodies.len() {
        let Some(body) = bodies.get(i) else {
            unreachable!();
        };
        if !take_feed(alloc, &mut taken, body)? {
            return Ok(None);
        }
    }
    Ok(Some(taken))
}

// takes what a record has, where it is a feed
fn take_feed(alloc: Global, taken: &mut Taken, body: &[u8]) -> Result<bool, NoMemory>
    ensures { IfOk result (Follows (led_by (Some taken.old) body.now) taken.new) }
{
    match read_feed(alloc, body)? {
        Some(actions) => {
            taken.take(actions.as_slice())?;
            Ok(true)
        }
        None => Ok(false),
    }
}
