//! What people are told of each status. The words of a line can be read in docs/SCHEDULES.md, those of a refusal in
//! docs/REPORT.md; they hold of each event that has this reason.

use cg_base::ReplicaId;
use cg_group::Reason;
use cg_run::{Explained, Limit, Status};
use std::alloc::{AllocError, AllocGlobal};
use std::test::Fail;

const WORDS: &str = "Done -> the command was carried out to its end
Usage -> the words are no command; give `replay`, `check`, `follow`, `relaxed`, `sessions`, `image` P (a replica, 1 to 32) or `json` a schedule by < FILE, or `compare` logs, or `inspect` an image, or give `generate` or `trial` SEED (a number of 64 bits), REPLICAS (1 to 32) and LINES (3 to 200000)
ReadFault -> reading the input failed; give a file that can be read, by < FILE
WriteFault -> writing the output failed, so it isn't whole; see whether the disk is full or a pipe was closed
Limit { line: 2, what: Line } -> line 2 passes a limit: it has more than 32768 bytes; make it shorter
Limit { line: 2, what: Input } -> line 2 passes a limit: with it the input has more than 8388608 bytes; make it shorter
Limit { line: 2, what: Lines } -> line 2 passes a limit: with it the input has more than 200000 lines; make it shorter
Limit { line: 2, what: Steps } -> line 2 passes a limit: with it the run has more than 2000000 steps; ask for fewer passes or lines
Limit { line: 0, what: Input } -> the image passes a limit: it has more than 8388608 bytes, and longer ones aren't looked at
NoMemory -> memory was refused, so the output isn't whole; give more memory, or a shorter schedule
NoEnd { lines: 7 } -> the input has no last line `end` (its lines: 7); add it
NotAnImage -> the input isn't the image of a replica's disk: a byte with the replica's number, and each side behind its length in 8 bytes
NotAStore -> on the disk in the image stands no state of the replica; see whether the image is that replica's, and whole
Syntax { line: 4, reason: 1 } -> line 4 can't be read: it isn't UTF-8; save the file as UTF-8 (reason 1)
Syntax { line: 4, reason: 2 } -> line 4 can't be read: its first word is none that this command reads; words are in lower case, and no byte order mark comes before them (reason 2)
Syntax { line: 4, reason: 3 } -> line 4 can't be read: it ends too early; docs/SCHEDULES.md has the parts of each line, as `stop 1 0 -` (reason 3)
Syntax { line: 4, reason: 4 } -> line 4 can't be read: it goes on where it must end, or where `;` or `?` must follow; a comment has a line of its own (reason 4)
Syntax { line: 4, reason: 5 } -> line 4 can't be read: a number, an identifier or a value is misspelled or out of range; identifiers are 1 to 32, with blanks between them, and texts stand between double quotes (reason 5)
Syntax { line: 4, reason: 6 } -> line 4 can't be read: a text is misspelled; it stands between double quotes, a key of 1 to 64 bytes, a value of up to 1024; and a `stop`, a `fstop` or a `recover` with a call ends with `-` or pairs of hexadecimal digits (reason 6)
Syntax { line: 4, reason: 7 } -> line 4 can't be read: there is no such command or query; commands are put, del, inc, cas, move and need; queries, which stand after `?` in a request, are get, keys and count (reason 7)
Syntax { line: 4, reason: 8 } -> line 4 can't be read: an identifier isn't above the one before it, or there are more than 16 commands; name each replica once, in ascending order (reason 8)
Syntax { line: 4, reason: 9 } -> line 4 can't be read: it comes at the wrong place; a schedule's `start` is its first event and comes once, `end` is the last line (reason 9)
NotUp(ReplicaId { number: 3 }) -> line 5 isn't admitted: replica 3 is down; recover it first (reason 1)
NotRegular(ReplicaId { number: 3 }) -> line 5 isn't admitted: replica 3 is alone, or was split from its configuration; merge it first (reason 2)
NothingToOrder(ReplicaId { number: 3 }) -> line 5 isn't admitted: replica 3 has no message that waits for a place; leave this line out (reason 3)
NoSuchPlace(8) -> line 5 isn't admitted: place 8 isn't in the configuration yet; order a message first (reason 4)
AlreadyReceived(8) -> line 5 isn't admitted: place 8 was received by the replica before; leave this line out (reason 5)
NotReady(8) -> line 5 isn't admitted: the places that are ready number 8; deliver no more, or let all members receive more first (reason 6)
NotOneConfiguration(ReplicaId { number: 3 }) -> line 5 isn't admitted: replica 3 isn't in the configuration of the lowest replica named; split each configuration by a line of its own (reason 7)
NotTogether(ReplicaId { number: 3 }) -> line 5 isn't admitted: replica 3 was split together with a replica that is named; name it too (reason 8)
EmptySet -> line 5 isn't admitted: no replica is named; name one (reason 9)
AlreadyUp(ReplicaId { number: 3 }) -> line 5 isn't admitted: replica 3 is up, or has begun already; recover or downgrade only one that is down, and transfer only to a new one (reason 10)
UnknownReplica(ReplicaId { number: 3 }) -> line 5 isn't admitted: replica 3 hasn't begun; name it at start, or let it join and transfer a snapshot to it (reason 11)
IdUsed(ReplicaId { number: 3 }) -> line 5 isn't admitted: replica 3 was named before, by start or by a join; take another identifier (reason 12)
JoinNotGreen(ReplicaId { number: 3 }) -> line 5 isn't admitted: replica 3 is no server yet to the replica that gives the snapshot; let the join become green there first (reason 13)
HasLeft(ReplicaId { number: 3 }) -> line 5 isn't admitted: replica 3 has left for good; leave it out, or name another replica (reason 14)
EarlierMissing(8) -> line 5 isn't admitted: place 8 of the same sender must be received first (reason 15)
StillRegular(ReplicaId { number: 3 }) -> line 5 isn't admitted: replica 3 is still in a configuration; split it first (reason 16)
Weighted(ReplicaId { number: 3 }) -> line 5 isn't admitted: replica 3 has a weight above 1 on its disk, and the older format has no weights; leave this line out (reason 17)
Discarded(8) -> line 5 isn't admitted: the replica's first actions, so many: 8, are discarded there, and the follower lacks some of them; make it anew, or feed it from a replica that has them (reason 18)
WouldGoBack(8) -> line 5 isn't admitted: the follower was shown at place 8, and the replica isn't so far; make it from another one (reason 19)
UnknownFollower(7) -> line 5 isn't admitted: follower 7 wasn't made; make it by a line `follower` (reason 20)
FollowerDown(7) -> line 5 isn't admitted: follower 7 is down; recover it first (reason 21)
FollowerUp(7) -> line 5 isn't admitted: follower 7 is up; recover only one that is down (reason 22)
UnknownSession(7) -> line 5 isn't admitted: session 7 isn't open; open it by a line `session` (reason 23)
SessionUsed(7) -> line 5 isn't admitted: session 7 is open already; take another number (reason 24)
NotCreating(ReplicaId { number: 3 }) -> line 5 isn't admitted: replica 3 would keep the request for later; write at one in RegPrim, or in NonPrim of a regular configuration (reason 25)
";

fn ends() -> [Status; 13] {
    [
        Status::Done,
        Status::Usage,
        Status::ReadFault,
        Status::WriteFault,
        passed(Limit::Line),
        passed(Limit::Input),
        passed(Limit::Lines),
        passed(Limit::Steps),
        Status::Limit {
            line: 0,
            what: Limit::Input,
        },
        Status::NoMemory,
        Status::NoEnd { lines: 7 },
        Status::NotAnImage,
        Status::NotAStore,
    ]
}

fn passed(what: Limit) -> Status {
    Status::Limit { line: 2, what }
}

fn reasons(id: ReplicaId, place: u64, number: u8) -> [Reason; 25] {
    [
        Reason::NotUp(id),
        Reason::NotRegular(id),
        Reason::NothingToOrder(id),
        Reason::NoSuchPlace(place),
        Reason::AlreadyReceived(place),
        Reason::NotReady(place),
        Reason::NotOneConfiguration(id),
        Reason::NotTogether(id),
        Reason::EmptySet,
        Reason::AlreadyUp(id),
        Reason::UnknownReplica(id),
        Reason::IdUsed(id),
        Reason::JoinNotGreen(id),
        Reason::HasLeft(id),
        Reason::EarlierMissing(place),
        Reason::StillRegular(id),
        Reason::Weighted(id),
        Reason::Discarded(place),
        Reason::WouldGoBack(place),
        Reason::UnknownFollower(number),
        Reason::FollowerDown(number),
        Reason::FollowerUp(number),
        Reason::UnknownSession(number),
        Reason::SessionUsed(number),
        Reason::NotCreating(id),
    ]
}

fn tell_ends(told: &mut String) -> Result<(), AllocError> {
    for status in ends() {
        let explained = Explained(status);
        writeln!(told, "{status:?} -> {explained}")?;
    }
    Ok(())
}

fn tell_misreadings(told: &mut String) -> Result<(), AllocError> {
    for reason in 1..=9 {
        let status = Status::Syntax { line: 4, reason };
        let explained = Explained(status);
        writeln!(told, "{status:?} -> {explained}")?;
    }
    Ok(())
}

fn tell_refusals(told: &mut String) -> Result<(), AllocError> {
    for reason in reasons(ReplicaId::known(3), 8, 7) {
        let explained = Explained(Status::Refused { line: 5, reason });
        writeln!(told, "{reason:?} -> {explained}")?;
    }
    Ok(())
}

#[test]
fn each_status_has_its_words(rt: HostRuntime) -> Result<(), Fail> {
    let mut told = String::new(rt.alloc());
    tell_ends(&mut told)?;
    tell_misreadings(&mut told)?;
    tell_refusals(&mut told)?;
    assert_eq!(rt; told.as_str(), WORDS);
    Ok(())
}
