//! The names that stand in logs, ascending by place, and what is found in them.

ghost use Rattle.std.specs.Prelude.{◌≡◌, ◌∷◌, ◌++◌, ◌<◌, ◌+◌, ◌-◌, [], Some, None, length, replicate, IfOk, OnOk};
ghost use Rattle.cg_compare.specs.Seen.{ArePlaced, all_names, covered_above, difference_after, difference_among, names_in, repeat_after};

use crate::{CoveredList, Joined, Log};
use cg_base::{ActionId, NoMemory, Row};
use std::alloc::Global;
use std::collections::BTreeMap;

/// A name that a log has at a place, and the log's line.
#[derive(Clone, Copy)]
pub(crate) struct Seen {
    pub place: u64,
    pub line: u64,
    pub id: ActionId,
}

/// The names that stand in the logs, ascending by place, and at each place in the order of the lines. Memory is also
/// refused for a place above 2^64 - 1.
pub(crate) fn placed_names(alloc: Global, logs: &[Log]) -> Result<Vec<Seen>, NoMemory>
    ensures { IfOk result (λ names. ArePlaced logs.now names.items) }
{
    let mut names = all_names(alloc, logs)?;
    names.sort_by_key(|s| s.place)?;
    Ok(names)
}

fn all_names(alloc: Global, logs: &[Log]) -> Result<Vec<Seen>, NoMemory>
    ensures { IfOk result (λ names. names.items ≡ all_names logs.now) }
{
    let mut names = Vec::new(alloc);
    for log in logs {
        add_names(&mut names, log)?;
    }
    Ok(names)
}

fn add_names(names: &mut Vec<Seen>, log: &Log) -> Result<(), NoMemory>
    ensures { OnOk result (names.new.items ≡ names.old.items ++ names_in log.now) }
{
    let mut place = log.white;
    for id in log.list.as_slice() {
        place = place.checked_add(1).ok_or(NoMemory)?;
        names.push(Seen {
            place,
            line: log.line,
            id: *id,
        })?;
    }
    Ok(())
}

/// The first name that differs from the first one at its place.
pub(crate) fn difference(names: &[Seen]) -> Option<Joined>
    ensures { result ≡ difference_among names.now }
{
    let (first, more) = names.split_first()?;
    difference_after(*first, more)
}

// the same of a name and those after it
fn difference_after(first: Seen, more: &[Seen]) -> Option<Joined>
    ensures { result ≡ difference_after first more.now }
{
    let mut first = first;
    for s in more {
        if s.place != first.place {
            first = *s;
        } else if s.id != first.id {
            return Some(Joined::Differ {
                place: s.place,
                line: first.line,
                id: first.id,
                other_line: s.line,
                other_id: s.id,
            });
        }
    }
    None
}

/// The first name that was seen at another place before.
pub(crate) fn repeat(alloc: Global, names: &[Seen]) -> Result<Option<Joined>, NoMemory>
    ensures { IfOk result (λ found. found ≡ repeat_after [] names.now) }
{
    let mut places = BTreeMap::new(alloc);
    for s in names {
        match places.get(&s.id) {
            None => {
                places.insert(s.id, s.place)?;
            }
            Some(place) => {
                if *place != s.place {
                    return Ok(Some(Joined::Twice {
                        id: s.id,
                        place: *place,
                        other_place: s.place,
                    }));
                }
            }
        }
    }
    Ok(None)
}

/// The names at the places from 1 to the last one that is covered. Memory for all of them is asked for at first.
pub(crate) fn covered(alloc: Global, names: &[Seen]) -> Result<CoveredList, NoMemory>
    ensures { IfOk result (λ list. list ≡ covered_above 0 names.now) }
{
    let mut list = with_room(alloc, names)?;
    for s in names {
        if s.place > list.len() as u64 {
            put_at(&mut list, s.place, s.id)?;
        }
    }
    Ok(list)
}

// with room for as many as there are places
fn with_room(alloc: Global, names: &[Seen]) -> Result<CoveredList, NoMemory>
    ensures { IfOk result (λ list. list ≡ []) }
{
    match names.last() {
        None => Ok(Row::new(alloc)),
        Some(s) => Row::with_capacity(alloc, s.place as usize),
    }
}

// the name at the place, and none at those between
fn put_at(list: &mut CoveredList, place: u64, id: ActionId) -> Result<(), NoMemory>
    requires { length list.old < place }
    ensures { OnOk result (list.new ≡ list.old ++ (replicate (place - (length list.old + 1)) None ++ Some id ∷ [])) }
{
    while list.len() as u64 + 1 < place {
        list.push(None)?;
    }
    list.push(Some(id))
}
