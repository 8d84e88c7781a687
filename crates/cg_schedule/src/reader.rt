//! The reader of a schedule's lines.

ghost use Rattle.std.specs.Prelude.{◌≡◌, MatchResult, [], ◌∷◌};
ghost use Rattle.std.specs.Str.{is_utf8};
ghost use Rattle.cg_schedule.specs.Fault.{Gives};
ghost use Rattle.cg_schedule.specs.Reading.{Takes, TakesWithMemory, whole};
ghost use Rattle.cg_schedule.specs.Line.{ids, weights, start_reading, split_reading, merge_reading, request_reading, weak_reading, dirty_reading, order_reading, recover_reading, recover_stopped_reading, downgrade_reading, show_reading, receive_reading, deliver_reading, rounds_reading, stop_reading, fail_reading, join_reading, leave_reading, transfer_reading, event_reading};

use crate::command::{take_query, take_update};
use crate::part::{
    count, identifier, take_count, take_fill, take_id, take_number, take_token, take_weighted,
    weighted,
};
use crate::{Event, LineFault, ReaderState, SyntaxReason, Word};
use cg_base::{IdSet, ReplicaId, WeightSet};
use cg_text::{Words, is_passed_over};
use std::alloc::Global;
use std::marker::Model;
use std::str::from_utf8;

/// A reader of a schedule's lines, one after the other. Clauses see its state: what stood before the next line.
pub struct Reader {
    state: ReaderState,
}

impl Drop for Reader {
    fn drop(self) {
        let Reader { state: _ } = self;
    }
}

impl Model for Reader {
    ghost use Rattle.cg_schedule.specs.declared.reader_state.ReaderState.{ReaderState};

    ghost Value = { ReaderState };

    ghost view = { λ r. r.state };
}

impl Reader {
    ghost use Rattle.cg_schedule.specs.Line.{first_state, state_after, state_behind, opening, reading};

    /// The reader of the first line.
    pub fn new() -> Reader
        ensures { result ≡ first_state }
    {
        Reader {
            state: ReaderState::first(),
        }
    }

    /// What stood before the next line.
    pub fn state(&self) -> ReaderState
        ensures { result ≡ self.now }
    {
        self.state
    }

    /// The event that the line is, without its end, or None where it is passed over. The line is `begin_line` and
    /// then `finish_line`. After an event the reader stands behind it; else it is as before.
    pub fn read_line(&mut self, alloc: Global, line: &[u8]) -> Result<Option<Event>, LineFault>
        ensures reading { Gives (reading self.old line.now) result }
        ensures state { self.new ≡ state_behind self.old result }
    {
        let Some((word, words)) = self.begin_line(line)? else {
            return Ok(None);
        };
        let event = self.finish_line(alloc, word, words)?;
        Ok(Some(event))
    }

    /// The event word with which the line begins, and the tokens behind it, or None where the line is passed over.
    /// The reasons 1, 2 and 9 come here, and no others.
    #[tactic(auto, unfolding(crate::specs::Line::opening))]
    pub fn begin_line<'a>(&self, line: &'a [u8]) -> Result<Option<(Word, Words<'a>)>, LineFault>
        ensures { result ≡ opening self.now line.now }
    {
        if is_passed_over(line) {
            return Ok(None);
        }
        if !is_utf8(line) {
            return Err(LineFault::Syntax(SyntaxReason::NotUtf8));
        }
        let mut words = Words::new(line);
        let Some(token) = words.next() else {
            return Err(LineFault::Syntax(SyntaxReason::UnknownWord));
        };
        let Some(word) = Word::of(token) else {
            return Err(LineFault::Syntax(SyntaxReason::UnknownWord));
        };
        if !self.state.fits(word) {
            return Err(LineFault::Syntax(SyntaxReason::Misplaced));
        }
        Ok(Some((word, words)))
    }

    /// The event of a word that may stand where it does, from the tokens behind it. The reasons 3 to 8 come here.
    pub fn finish_line(
        &mut self,
        alloc: Global,
        word: Word,
        words: Words,
    ) -> Result<Event, LineFault>
        ensures event { Gives (whole (event_reading word) words.entry) result }
        ensures state { MatchResult result (λ event. self.new ≡ state_after self.old event) (λ _. self.new ≡ self.old) }
    {
        let event = whole_event(alloc, word, words)?;
        self.state = self.state.after(&event);
        Ok(event)
    }
}

fn is_utf8(line: &[u8]) -> bool
    ensures { result ≡ is_utf8 line.now }
{
    match from_utf8(line) {
        Ok(_) => true,
        Err(_) => false,
    }
}

// the event that all of the tokens are
fn whole_event(alloc: Global, word: Word, words: Words) -> Result<Event, LineFault>
    ensures { Gives (whole (event_reading word) words.entry) result }
{
    let mut words = words;
    let event = take_event(alloc, &mut words, word)?;
    match words.next() {
        None => Ok(event),
        Some(_) => Err(LineFault::Syntax(SyntaxReason::ExtraPart)),
    }
}

#[tactic(auto, unfolding(crate::specs::Line::event_reading))]
fn take_event(alloc: Global, words: &mut Words, word: Word) -> Result<Event, LineFault>
    ensures { TakesWithMemory (λ e. e) (event_reading word) words.old words.new result }
{
    match word {
        Word::Start => take_start(words),
        Word::Split => take_split(words),
        Word::Merge => take_merge(words),
        Word::Request => take_request(alloc, words),
        Word::Weak => take_weak(alloc, words),
        Word::Dirty => take_dirty(alloc, words),
        Word::Order => take_order(words),
        Word::Recover => take_recover(alloc, words),
        Word::Downgrade => take_downgrade(words),
        Word::Show => take_show(words),
        Word::Gather => Ok(Event::Gather),
        Word::End => Ok(Event::End),
        Word::Receive => take_receive(words),
        Word::Deliver => take_deliver(words),
        Word::Rounds => take_rounds(words),
        Word::Stop => take_stop(alloc, words),
        Word::Fail => take_fail(words),
        Word::Join => take_join(words),
        Word::Leave => take_leave(words),
        Word::Transfer => take_transfer(words),
    }
}

// identifiers up to the line's end, each above the one before
#[tactic(auto, unfolding(crate::specs::Line::ids))]
fn take_ids(words: &mut Words) -> Result<IdSet, LineFault>
    ensures { Takes (λ set. set) (ids 0 []) words.old words.new result }
{
    let mut set = IdSet::empty();
    let mut last = 0;
    while let Some(token) = words.next() {
        let id = identifier(token)?;
        if id.get() <= last {
            return Err(LineFault::Syntax(SyntaxReason::BadList));
        }
        set.add(id);
        last = id.get();
    }
    Ok(set)
}

// the same with weights
#[tactic(auto, unfolding(crate::specs::Line::weights))]
fn take_weights(words: &mut Words) -> Result<WeightSet, LineFault>
    ensures { Takes (λ set. set) (weights 0 []) words.old words.new result }
{
    let mut set = WeightSet::empty();
    let mut last = 0;
    while let Some(token) = words.next() {
        let member = weighted(token)?;
        if member.id.get() <= last {
            return Err(LineFault::Syntax(SyntaxReason::BadList));
        }
        set.put(member.id, member.weight);
        last = member.id.get();
    }
    Ok(set)
}

#[tactic(auto, unfolding(crate::specs::Line::start_reading))]
fn take_start(words: &mut Words) -> Result<Event, LineFault>
    ensures { Takes (λ e. e) start_reading words.old words.new result }
{
    let set = take_weights(words)?;
    Ok(Event::Start(set))
}

#[tactic(auto, unfolding(crate::specs::Line::split_reading))]
fn take_split(words: &mut Words) -> Result<Event, LineFault>
    ensures { Takes (λ e. e) split_reading words.old words.new result }
{
    let set = take_ids(words)?;
    Ok(Event::Split(set))
}

#[tactic(auto, unfolding(crate::specs::Line::merge_reading))]
fn take_merge(words: &mut Words) -> Result<Event, LineFault>
    ensures { Takes (λ e. e) merge_reading words.old words.new result }
{
    let set = take_ids(words)?;
    Ok(Event::Merge(set))
}

#[tactic(auto, unfolding(crate::specs::Line::request_reading))]
fn take_request(alloc: Global, words: &mut Words) -> Result<Event, LineFault>
    ensures { TakesWithMemory (λ e. e) request_reading words.old words.new result }
{
    let p = take_id(words)?;
    let (cmds, query) = take_update(alloc, words)?;
    Ok(Event::Request { p, cmds, query })
}

#[tactic(auto, unfolding(crate::specs::Line::weak_reading))]
fn take_weak(alloc: Global, words: &mut Words) -> Result<Event, LineFault>
    ensures { TakesWithMemory (λ e. e) weak_reading words.old words.new result }
{
    let p = take_id(words)?;
    let query = take_query(alloc, words)?;
    Ok(Event::Weak { p, query })
}

#[tactic(auto, unfolding(crate::specs::Line::dirty_reading))]
fn take_dirty(alloc: Global, words: &mut Words) -> Result<Event, LineFault>
    ensures { TakesWithMemory (λ e. e) dirty_reading words.old words.new result }
{
    let p = take_id(words)?;
    let query = take_query(alloc, words)?;
    Ok(Event::Dirty { p, query })
}

#[tactic(auto, unfolding(crate::specs::Line::order_reading))]
fn take_order(words: &mut Words) -> Result<Event, LineFault>
    ensures { Takes (λ e. e) order_reading words.old words.new result }
{
    let p = take_id(words)?;
    Ok(Event::Order(p))
}

#[tactic(auto, unfolding(crate::specs::Line::recover_reading))]
fn take_recover(alloc: Global, words: &mut Words) -> Result<Event, LineFault>
    ensures { TakesWithMemory (λ e. e) recover_reading words.old words.new result }
{
    let p = take_id(words)?;
    match words.next() {
        None => Ok(Event::Recover(p)),
        Some(token) => take_recover_stopped(alloc, words, p, token),
    }
}

// a recovery that is to be stopped, from the token of its call on
#[tactic(auto, unfolding(crate::specs::Line::recover_stopped_reading, crate::specs::Part::count_part))]
fn take_recover_stopped(
    alloc: Global,
    words: &mut Words,
    p: ReplicaId,
    token: &[u8],
) -> Result<Event, LineFault>
    ensures { TakesWithMemory (λ e. e) (recover_stopped_reading p) (token.now ∷ words.old) words.new result }
{
    let call = count(token)?;
    let fill = take_fill(alloc, words)?;
    Ok(Event::RecoverStopped { p, call, fill })
}

#[tactic(auto, unfolding(crate::specs::Line::downgrade_reading))]
fn take_downgrade(words: &mut Words) -> Result<Event, LineFault>
    ensures { Takes (λ e. e) downgrade_reading words.old words.new result }
{
    let p = take_id(words)?;
    Ok(Event::Downgrade(p))
}

#[tactic(auto, unfolding(crate::specs::Line::show_reading))]
fn take_show(words: &mut Words) -> Result<Event, LineFault>
    ensures { Takes (λ e. e) show_reading words.old words.new result }
{
    let token = take_token(words)?;
    if token == b"order".as_slice() {
        return Ok(Event::ShowOrder);
    }
    let p = identifier(token)?;
    Ok(Event::Show(p))
}

#[tactic(auto, unfolding(crate::specs::Line::receive_reading))]
fn take_receive(words: &mut Words) -> Result<Event, LineFault>
    ensures { Takes (λ e. e) receive_reading words.old words.new result }
{
    let p = take_id(words)?;
    let place = take_count(words)?;
    Ok(Event::Receive { p, place })
}

#[tactic(auto, unfolding(crate::specs::Line::deliver_reading))]
fn take_deliver(words: &mut Words) -> Result<Event, LineFault>
    ensures { Takes (λ e. e) deliver_reading words.old words.new result }
{
    let p = take_id(words)?;
    let count = take_count(words)?;
    Ok(Event::Deliver { p, count })
}

#[tactic(auto, unfolding(crate::specs::Line::rounds_reading))]
fn take_rounds(words: &mut Words) -> Result<Event, LineFault>
    ensures { Takes (λ e. e) rounds_reading words.old words.new result }
{
    let count = take_count(words)?;
    Ok(Event::Rounds(count))
}

#[tactic(auto, unfolding(crate::specs::Line::stop_reading))]
fn take_stop(alloc: Global, words: &mut Words) -> Result<Event, LineFault>
    ensures { TakesWithMemory (λ e. e) stop_reading words.old words.new result }
{
    let p = take_id(words)?;
    let call = take_number(words, 0, 1_000_000)?;
    let fill = take_fill(alloc, words)?;
    Ok(Event::Stop { p, call, fill })
}

#[tactic(auto, unfolding(crate::specs::Line::fail_reading))]
fn take_fail(words: &mut Words) -> Result<Event, LineFault>
    ensures { Takes (λ e. e) fail_reading words.old words.new result }
{
    let p = take_id(words)?;
    let call = take_count(words)?;
    Ok(Event::Fail { p, call })
}

#[tactic(auto, unfolding(crate::specs::Line::join_reading))]
fn take_join(words: &mut Words) -> Result<Event, LineFault>
    ensures { Takes (λ e. e) join_reading words.old words.new result }
{
    let p = take_id(words)?;
    let joiner = take_weighted(words)?;
    Ok(Event::Join {
        p,
        joiner: joiner.id,
        weight: joiner.weight,
    })
}

#[tactic(auto, unfolding(crate::specs::Line::leave_reading))]
fn take_leave(words: &mut Words) -> Result<Event, LineFault>
    ensures { Takes (λ e. e) leave_reading words.old words.new result }
{
    let p = take_id(words)?;
    let server = take_id(words)?;
    Ok(Event::Leave { p, server })
}

#[tactic(auto, unfolding(crate::specs::Line::transfer_reading))]
fn take_transfer(words: &mut Words) -> Result<Event, LineFault>
    ensures { Takes (λ e. e) transfer_reading words.old words.new result }
{
    let p = take_id(words)?;
    let joiner = take_id(words)?;
    let pieces = take_count(words)?;
    Ok(Event::Transfer { p, joiner, pieces })
}
