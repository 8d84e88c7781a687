//! The reader of the lines of followers.

ghost use Rattle.std.specs.Prelude.{◌≡◌};
ghost use Rattle.std.specs.Str.{is_utf8};
ghost use Rattle.cg_schedule.specs.Fault.{Gives};
ghost use Rattle.cg_schedule.specs.Reading.{Takes, TakesWithMemory, whole};
ghost use Rattle.cg_follow.specs.Line.{make_reading, feed_reading, stop_reading, recover_reading, weak_reading, event_reading, follow_reading};

use crate::FollowEvent;
use crate::word::FollowWord;
use cg_schedule::{
    LineFault, SyntaxReason, take_count, take_fill, take_id, take_number, take_query,
};
use cg_text::{Words, is_passed_over};
use std::alloc::Global;
use std::str::from_utf8;

/// The event that the line is, without its end. None says that it is no line of followers: it is passed over, or its
/// first token is none of their words.
#[tactic(auto, unfolding(crate::specs::Line::follow_reading))]
pub fn read_follow(alloc: Global, line: &[u8]) -> Result<Option<FollowEvent>, LineFault>
    ensures { Gives (follow_reading line.now) result }
{
    if is_passed_over(line) {
        return Ok(None);
    }
    let mut words = Words::new(line);
    let Some(token) = words.next() else {
        return Ok(None);
    };
    let Some(word) = FollowWord::of(token) else {
        return Ok(None);
    };
    if !is_utf8(line) {
        return Err(LineFault::Syntax(SyntaxReason::NotUtf8));
    }
    let event = whole_event(alloc, word, words)?;
    Ok(Some(event))
}

fn is_utf8(line: &[u8]) -> bool
    ensures { result ≡ is_utf8 line.now }
{
    match from_utf8(line) {
        Ok(_) => true,
        Err(_) => false,
    }
}

// the event that all of the tokens are
fn whole_event(alloc: Global, word: FollowWord, words: Words) -> Result<FollowEvent, LineFault>
    ensures { Gives (whole (event_reading word) words.entry) result }
{
    let mut words = words;
    let event = take_event(alloc, &mut words, word)?;
    match words.next() {
        None => Ok(event),
        Some(_) => Err(LineFault::Syntax(SyntaxReason::ExtraPart)),
    }
}

#[tactic(auto, unfolding(crate::specs::Line::event_reading))]
fn take_event(alloc: Global, words: &mut Words, word: FollowWord) -> Result<FollowEvent, LineFault>
    ensures { TakesWithMemory (λ e. e) (event_reading word) words.old words.new result }
{
    match word {
        FollowWord::Follower => take_make(words),
        FollowWord::Feed => take_feed(words),
        FollowWord::Fstop => take_stop(alloc, words),
        FollowWord::Frecover => take_recover(words),
        FollowWord::Fweak => take_weak(alloc, words),
    }
}

#[tactic(auto, unfolding(crate::specs::Line::make_reading))]
fn take_make(words: &mut Words) -> Result<FollowEvent, LineFault>
    ensures { Takes (λ e. e) make_reading words.old words.new result }
{
    let f = take_id(words)?.get();
    let p = take_id(words)?;
    Ok(FollowEvent::Follower { f, p })
}

#[tactic(auto, unfolding(crate::specs::Line::feed_reading))]
fn take_feed(words: &mut Words) -> Result<FollowEvent, LineFault>
    ensures { Takes (λ e. e) feed_reading words.old words.new result }
{
    let p = take_id(words)?;
    let f = take_id(words)?.get();
    let count = take_count(words)?;
    Ok(FollowEvent::Feed { p, f, count })
}

#[tactic(auto, unfolding(crate::specs::Line::stop_reading))]
fn take_stop(alloc: Global, words: &mut Words) -> Result<FollowEvent, LineFault>
    ensures { TakesWithMemory (λ e. e) stop_reading words.old words.new result }
{
    let f = take_id(words)?.get();
    let call = take_number(words, 0, 1_000_000)?;
    let fill = take_fill(alloc, words)?;
    Ok(FollowEvent::Stop { f, call, fill })
}

#[tactic(auto, unfolding(crate::specs::Line::recover_reading))]
fn take_recover(words: &mut Words) -> Result<FollowEvent, LineFault>
    ensures { Takes (λ e. e) recover_reading words.old words.new result }
{
    let f = take_id(words)?;
    Ok(FollowEvent::Recover(f.get()))
}

#[tactic(auto, unfolding(crate::specs::Line::weak_reading))]
fn take_weak(alloc: Global, words: &mut Words) -> Result<FollowEvent, LineFault>
    ensures { TakesWithMemory (λ e. e) weak_reading words.old words.new result }
{
    let f = take_id(words)?.get();
    let query = take_query(alloc, words)?;
    Ok(FollowEvent::Weak { f, query })
}
