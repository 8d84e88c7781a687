//! The commands and the query of a request.

ghost use Rattle.std.specs.Prelude.{◌≡◌, [], Ok, Err};
ghost use Rattle.cg_schedule.specs.Reading.{TakesWithMemory};
ghost use Rattle.cg_schedule.specs.Command.{key_part, put_reading, del_reading, inc_reading, cas_reading, move_reading, need_reading, command_of, is_command_word, query_of, query_reading, is_semicolon, is_question_mark, with_query, one_too_many, commands, update_of, update_reading};

use crate::part::{take_amount, take_integer, take_text, take_token, take_value, take_want};
use crate::{LineFault, SyntaxReason};
use cg_action::{Boxed, Cmd, CmdList, Query};
use cg_text::{Txt, Words};
use std::alloc::Global;

fn take_key(alloc: Global, words: &mut Words) -> Result<Txt, LineFault>
    ensures { TakesWithMemory (λ t. t) key_part words.old words.new result }
{
    take_text(alloc, words, 1, 64)
}

#[tactic(auto, unfolding(crate::specs::Command::put_reading))]
fn take_put(alloc: Global, words: &mut Words) -> Result<Cmd, LineFault>
    ensures { TakesWithMemory (λ c. c) put_reading words.old words.new result }
{
    let key = take_key(alloc, words)?;
    let value = take_value(alloc, words)?;
    Ok(Cmd::Put { key, value })
}

#[tactic(auto, unfolding(crate::specs::Command::del_reading))]
fn take_del(alloc: Global, words: &mut Words) -> Result<Cmd, LineFault>
    ensures { TakesWithMemory (λ c. c) del_reading words.old words.new result }
{
    let key = take_key(alloc, words)?;
    Ok(Cmd::Del { key })
}

#[tactic(auto, unfolding(crate::specs::Command::inc_reading))]
fn take_inc(alloc: Global, words: &mut Words) -> Result<Cmd, LineFault>
    ensures { TakesWithMemory (λ c. c) inc_reading words.old words.new result }
{
    let key = take_key(alloc, words)?;
    let by = take_integer(words)?;
    Ok(Cmd::Inc { key, by })
}

#[tactic(auto, unfolding(crate::specs::Command::cas_reading))]
fn take_cas(alloc: Global, words: &mut Words) -> Result<Cmd, LineFault>
    ensures { TakesWithMemory (λ c. c) cas_reading words.old words.new result }
{
    let key = take_key(alloc, words)?;
    let want = take_want(alloc, words)?;
    let value = Boxed::new(alloc, take_value(alloc, words)?)?;
    Ok(Cmd::Cas { key, want, value })
}

#[tactic(auto, unfolding(crate::specs::Command::move_reading))]
fn take_move(alloc: Global, words: &mut Words) -> Result<Cmd, LineFault>
    ensures { TakesWithMemory (λ c. c) move_reading words.old words.new result }
{
    let source = take_key(alloc, words)?;
    let target = take_key(alloc, words)?;
    let amount = take_amount(words)?;
    Ok(Cmd::Move {
        source,
        target,
        amount,
    })
}

#[tactic(auto, unfolding(crate::specs::Command::need_reading))]
fn take_need(alloc: Global, words: &mut Words) -> Result<Cmd, LineFault>
    ensures { TakesWithMemory (λ c. c) need_reading words.old words.new result }
{
    let key = take_key(alloc, words)?;
    let want = take_want(alloc, words)?;
    Ok(Cmd::Need { key, want })
}

// the command whose word was taken
#[tactic(auto, unfolding(crate::specs::Command::command_of))]
fn take_command(alloc: Global, words: &mut Words, word: &[u8]) -> Result<Cmd, LineFault>
    ensures { TakesWithMemory (λ c. c) (command_of word.now) words.old words.new result }
{
    if word == b"put".as_slice() {
        take_put(alloc, words)
    } else if word == b"del".as_slice() {
        take_del(alloc, words)
    } else if word == b"inc".as_slice() {
        take_inc(alloc, words)
    } else if word == b"cas".as_slice() {
        take_cas(alloc, words)
    } else if word == b"move".as_slice() {
        take_move(alloc, words)
    } else if word == b"need".as_slice() {
        take_need(alloc, words)
    } else {
        Err(LineFault::Syntax(SyntaxReason::BadCommand))
    }
}

fn is_command_word(word: &[u8]) -> bool
    ensures { result ≡ is_command_word word.now }
{
    word == b"put".as_slice()
        || word == b"del".as_slice()
        || word == b"inc".as_slice()
        || word == b"cas".as_slice()
        || word == b"move".as_slice()
        || word == b"need".as_slice()
}

// the query whose word was taken
#[tactic(auto, unfolding(crate::specs::Command::query_of))]
fn take_query_of(alloc: Global, words: &mut Words, word: &[u8]) -> Result<Query, LineFault>
    ensures { TakesWithMemory (λ q. q) (query_of word.now) words.old words.new result }
{
    if word == b"get".as_slice() {
        let key = take_key(alloc, words)?;
        Ok(Query::Get(key))
    } else if word == b"keys".as_slice() {
        let prefix = take_text(alloc, words, 0, 64)?;
        Ok(Query::Keys(prefix))
    } else if word == b"count".as_slice() {
        Ok(Query::Count)
    } else {
        Err(LineFault::Syntax(SyntaxReason::BadCommand))
    }
}

/// Takes a query: its word and what it is asked about.
#[tactic(auto, unfolding(crate::specs::Command::query_reading))]
pub fn take_query(alloc: Global, words: &mut Words) -> Result<Query, LineFault>
    ensures { TakesWithMemory (λ q. q) query_reading words.old words.new result }
{
    let word = take_token(words)?;
    take_query_of(alloc, words, word)
}

fn is_semicolon(token: &[u8]) -> bool
    ensures { result ≡ is_semicolon token.now }
{
    token == b";".as_slice()
}

fn is_question_mark(token: &[u8]) -> bool
    ensures { result ≡ is_question_mark token.now }
{
    token == b"?".as_slice()
}

// the query behind the commands
#[tactic(auto, unfolding(crate::specs::Command::with_query))]
fn with_query(
    alloc: Global,
    words: &mut Words,
    cmds: CmdList,
) -> Result<(CmdList, Option<Query>), LineFault>
    ensures { TakesWithMemory (λ u. u) (with_query cmds) words.old words.new result }
{
    let query = take_query(alloc, words)?;
    Ok((cmds, Some(query)))
}

fn one_too_many(word: &[u8]) -> LineFault
    ensures { result ≡ one_too_many word.now }
{
    if is_command_word(word) {
        LineFault::Syntax(SyntaxReason::BadList)
    } else {
        LineFault::Syntax(SyntaxReason::BadCommand)
    }
}

// commands, of which the first word was taken, and the query behind them
fn take_commands<'a>(
    alloc: Global,
    words: &mut Words<'a>,
    first: &'a [u8],
) -> Result<(CmdList, Option<Query>), LineFault>
    ensures { TakesWithMemory (λ u. u) (commands 16 [] first.now) words.old words.new result }
{
    let mut cmds = CmdList::new(alloc);
    let mut word = first;
    for _ in 0..16_u32 {
        cmds.push(take_command(alloc, words, word)?)?;
        let Some(joint) = words.next() else {
            return Ok((cmds, None));
        };
        if is_question_mark(joint) {
            return with_query(alloc, words, cmds);
        }
        if !is_semicolon(joint) {
            return Err(LineFault::Syntax(SyntaxReason::ExtraPart));
        }
        word = take_token(words)?;
    }
    Err(one_too_many(word))
}

// what is asked, of which the first token was taken
#[tactic(auto, unfolding(crate::specs::Command::update_of))]
fn take_update_of<'a>(
    alloc: Global,
    words: &mut Words<'a>,
    token: &'a [u8],
) -> Result<(CmdList, Option<Query>), LineFault>
    ensures { TakesWithMemory (λ u. u) (update_of token.now) words.old words.new result }
{
    if is_question_mark(token) {
        return with_query(alloc, words, CmdList::new(alloc));
    }
    take_commands(alloc, words, token)
}

/// Takes what a request asks: a query alone, or 1 to 16 commands with or without one after `?`.
#[tactic(auto, unfolding(crate::specs::Command::update_reading))]
pub fn take_update(alloc: Global, words: &mut Words) -> Result<(CmdList, Option<Query>), LineFault>
    ensures { TakesWithMemory (λ u. u) update_reading words.old words.new result }
{
    let token = take_token(words)?;
    take_update_of(alloc, words, token)
}
