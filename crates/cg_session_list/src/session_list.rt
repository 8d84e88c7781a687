ghost use Rattle.std.specs.Prelude.{◌≡◌, ◌==◌, [], ◌∷◌, ◌++◌, None, filter, map, position, IfOk, OnErr, OnOk};
ghost use Rattle.std.specs.Option.{option_copied};
ghost use Rattle.cg_session.specs.Token.{raises, read, replied, wrote};
ghost use Rattle.cg_session_list.specs.declared.session_line.SessionLine.TheVariants.{At};
ghost use Rattle.cg_session_list.specs.Apart.{AreApart, ids};
ghost use Rattle.cg_session_list.specs.Parts.{after_read, read_line, told_to};
ghost use Rattle.cg_session_list.specs.Sessions.{changed, changing};

use crate::{Session, SessionLine};
use cg_action::Answer;
use cg_base::{ActionId, NoMemory, Row};
use cg_group::Reason;
use cg_session::{BehindErr, Token};
use std::alloc::Global;
use std::marker::Model;

/// The open sessions, in the order of their opening. Clauses see the list of them.
pub struct SessionList {
    sessions: Vec<Session>,
}

impl Drop for SessionList {
    fn drop(self) {
        let SessionList { sessions: _ } = self;
    }
}

impl Model for SessionList {
    ghost use Rattle.std.specs.Prelude.{List};
    ghost use Rattle.cg_session_list.specs.declared.session.Session.{Session};
    ghost use Rattle.cg_session_list.specs.Apart.{AreApart, ids};

    ghost Value = { List Session };

    ghost view = { λ s. s.sessions.items };

    ghost invariant = { λ s. AreApart s.sessions.items };
}

impl SessionList {
    ghost use Rattle.cg_session_list.specs.Parts.{noted, reads};
    ghost use Rattle.cg_session_list.specs.Sessions.{token_of, unknown_session, session_used, opened, own_by, with_reply};

    /// No session is open.
    pub fn new(alloc: Global) -> SessionList
        ensures { result ≡ [] }
    {
        SessionList {
            sessions: Vec::new(alloc),
        }
    }

    /// What the session has seen, where it is open. It takes no memory.
    pub fn token(&self, s: u8) -> Option<&Token>
        ensures { option_copied result ≡ token_of self.now s }
    {
        match self.sessions.iter().find(|session| session.id == s) {
            Some(session) => Some(&session.token),
            None => None,
        }
    }

    /// The reason against an event of a session that has to be open, where it isn't.
    pub fn unknown_session(&self, s: u8) -> Option<Reason>
        ensures { result ≡ unknown_session self.now s }
    {
        match self.token(s) {
            Some(_) => None,
            None => Some(Reason::UnknownSession(s)),
        }
    }

    /// The reason against an event that opens the session, where it is open already.
    pub fn session_used(&self, s: u8) -> Option<Reason>
        ensures { result ≡ session_used self.now s }
    {
        match self.token(s) {
            Some(_) => Some(Reason::SessionUsed(s)),
            None => None,
        }
    }

    /// A session is opened.
    pub fn open(&mut self, alloc: Global, s: u8) -> Result<(), NoMemory>
        requires { session_used self.old s ≡ None }
        ensures ok { OnOk result (self.new ≡ opened self.old s) }
        ensures err { OnErr result (self.new ≡ self.old) }
    {
        let token = Token::new(alloc);
        self.sessions.push(Session { id: s, token })?;
        Ok(())
    }

    /// The session reads what a replica answers at its position, unless that is below what the session has seen: the
    /// line that tells of it.
    pub fn read(
        &mut self,
        alloc: Global,
        s: u8,
        answer: Answer,
        pos: u64,
    ) -> Result<Row<SessionLine>, NoMemory>
        ensures { IfOk result (λ lines. noted self.new lines ≡ reads self.old s answer pos) }
    {
        let Some(i) = place_of(self.sessions.as_slice(), s) else {
            return Ok(Row::new(alloc));
        };
        let line = read_by(&mut self.sessions[i].token, s, answer, pos);
        only(alloc, line)
    }

    /// The session wrote the action; the line that tells of it comes behind the others. After want of memory neither is
    /// of use.
    pub fn own(&mut self, lines: &mut Row<SessionLine>, s: u8, id: ActionId) -> Result<(), NoMemory>
        ensures { OnOk result (noted self.new lines.new ≡ own_by s (noted self.old lines.old) id) }
    {
        write_by_each(&mut self.sessions, s, &id)?;
        lines.push(SessionLine::Wrote { s, id })
    }

    /// The reply to an action at its place: the lines that tell of it come behind the others. After want of memory
    /// neither is of use.
    pub fn reply(
        &mut self,
        lines: &mut Row<SessionLine>,
        id: ActionId,
        place: u64,
    ) -> Result<(), NoMemory>
        ensures { OnOk result (noted self.new lines.new ≡ with_reply (noted self.old lines.old) id place) }
    {
        reply_to_each(&mut self.sessions, lines, &id, place)
    }
}

// the place of the session among those that are open
fn place_of(sessions: &[Session], s: u8) -> Option<usize>
    ensures { result ≡ position (λ o. o.id == s) sessions.now }
{
    sessions.iter().position(|session| session.id == s)
}

// the session reads, or is told what it has seen
fn read_by(token: &mut Token, s: u8, answer: Answer, pos: u64) -> SessionLine
    ensures line { result ≡ read_line s answer pos (read token.old pos) }
    ensures seen { token.new ≡ after_read token.old (read token.old pos) }
{
    match token.read(pos) {
        Ok(()) => SessionLine::Answered { s, answer, at: pos },
        Err(BehindErr { have, want }) => SessionLine::Behind { s, have, want },
    }
}

// a line alone
fn only(alloc: Global, line: SessionLine) -> Result<Row<SessionLine>, NoMemory>
    ensures { IfOk result (λ lines. lines ≡ line ∷ []) }
{
    let mut lines = Row::new(alloc);
    lines.push(line)?;
    Ok(lines)
}

// the session that has this number, which is among these at most once, wrote the action
fn write_by_each(sessions: &mut Vec<Session>, s: u8, id: &ActionId) -> Result<(), NoMemory>
    requires { AreApart sessions.old.items }
    ensures same { ids sessions.new.items ≡ ids sessions.old.items }
    ensures ok { OnOk result (sessions.new.items ≡ changing s (λ t. wrote t id.now) sessions.old.items) }
{
    let Some(i) = place_of(sessions.as_slice(), s) else {
        return Ok(());
    };
    write_by(&mut sessions[i].token, id)
}

fn write_by(token: &mut Token, id: &ActionId) -> Result<(), NoMemory>
    ensures { OnOk result (token.new ≡ wrote token.old id.now) }
{
    token.wrote(*id)
}

// the sessions that the reply raises, one line each
fn reply_to_each(
    sessions: &mut Vec<Session>,
    lines: &mut Row<SessionLine>,
    id: &ActionId,
    place: u64,
) -> Result<(), NoMemory>
    ensures same { ids sessions.new.items ≡ ids sessions.old.items }
    ensures seen { OnOk result (sessions.new.items ≡ map (changed (λ t. replied t id.now place)) sessions.old.items) }
    ensures lines { OnOk result (lines.new ≡
        lines.old ++ map (λ o. At o.id place) (filter (λ o. raises o.token id.now place) sessions.old.items)) }
{
    for i in 0..sessions.len() {
        reply_to(&mut sessions[i], lines, id, place)?;
    }
    Ok(())
}

fn reply_to(
    session: &mut Session,
    lines: &mut Row<SessionLine>,
    id: &ActionId,
    place: u64,
) -> Result<(), NoMemory>
    ensures seen { session.new ≡ changed (λ t. replied t id.now place) session.old }
    ensures lines { OnOk result (lines.new ≡ lines.old ++ told_to session.old id.now place) }
{
    let rises = session.token.replied(*id, place);
    if !rises {
        return Ok(());
    }
    lines.push(SessionLine::At {
        s: session.id,
        place,
    })
}
