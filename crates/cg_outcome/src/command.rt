ghost use Rattle.std.specs.Prelude.{◌≡◌, ◌≤◌, ◌∷◌, [], IfSome};
ghost use Rattle.cg_base.specs.Sets.{IsId};
ghost use Rattle.cg_outcome.specs.Calls.{of_schedule, IsCommand};
ghost use Rattle.cg_outcome.specs.Commands.{number_in, with_numbers, read_numbers, command_of};

use crate::arg_text::ArgText;
use crate::limits::LINES;
use cg_items::Report;
use cg_text::read_u64;

/// What a run is asked for: to replay the schedule of its input, and put so much of the report; to put the schedule of a
/// seed, for so many replicas and of so many lines; or to replay that one, and put a summary. A schedule may also have
/// lines of followers, of the relaxed database or of sessions, each with a command of its own; the input may be logs, which
/// are compared, or the image of a replica's disk, which is looked at. Such an image is put of the disk that a replica has
/// at the end of a schedule.
#[derive(Clone, Copy, Debug)]
pub enum Command {
    Replay(Report),
    Generate { seed: u64, replicas: u8, lines: u64 },
    Trial { seed: u64, replicas: u8, lines: u64 },
    Follow,
    Relaxed,
    Sessions,
    Compare,
    Image { replica: u8 },
    Inspect,
}

fn number_in(low: u64, high: u64, word: &ArgText) -> Option<u64>
    ensures value { result ≡ number_in low high word.now }
    ensures range { IfSome result (λ n. (low ≤ n) × (n ≤ high)) }
{
    match read_u64(word.as_slice()) {
        Ok(n) if low <= n && n <= high => Some(n),
        _ => None,
    }
}

fn word_alone(word: &ArgText) -> Option<Command>
    ensures value { result ≡ command_of (word.now ∷ []) }
    ensures fits { IfSome result IsCommand }
{
    if word.as_slice() == b"replay".as_slice() {
        Some(Command::Replay(Report::Whole))
    } else if word.as_slice() == b"check".as_slice() {
        Some(Command::Replay(Report::Tail))
    } else if word.as_slice() == b"follow".as_slice() {
        Some(Command::Follow)
    } else if word.as_slice() == b"relaxed".as_slice() {
        Some(Command::Relaxed)
    } else if word.as_slice() == b"sessions".as_slice() {
        Some(Command::Sessions)
    } else if word.as_slice() == b"compare".as_slice() {
        Some(Command::Compare)
    } else if word.as_slice() == b"inspect".as_slice() {
        Some(Command::Inspect)
    } else if word.as_slice() == b"json".as_slice() {
        Some(Command::Replay(Report::Json))
    } else {
        None
    }
}

fn replicas_in(word: &ArgText) -> Option<u8>
    ensures value { result ≡ number_in 1 32 word.now }
    ensures range { IfSome result IsId }
{
    match number_in(1, 32, word) {
        Some(n) => Some(n as u8),
        None => None,
    }
}

fn imaging(word: &ArgText, id: &ArgText) -> Option<Command>
    ensures value { result ≡ command_of (word.now ∷ id.now ∷ []) }
    ensures fits { IfSome result IsCommand }
{
    if word.as_slice() == b"image".as_slice() {
        match replicas_in(id) {
            Some(replica) => Some(Command::Image { replica }),
            None => None,
        }
    } else {
        None
    }
}

fn of_schedule(is_trial: bool, seed: u64, replicas: u8, lines: u64) -> Command
    requires { IsId replicas }
    ensures value { result ≡ of_schedule is_trial seed replicas lines }
    ensures fits { IsCommand result }
{
    if is_trial {
        Command::Trial {
            seed,
            replicas,
            lines,
        }
    } else {
        Command::Generate {
            seed,
            replicas,
            lines,
        }
    }
}

fn with_numbers(
    is_trial: bool,
    seed: Option<u64>,
    replicas: Option<u8>,
    lines: Option<u64>,
) -> Option<Command>
    requires range { IfSome replicas IsId }
    ensures value { result ≡ with_numbers (of_schedule is_trial) seed replicas lines }
    ensures fits { IfSome result IsCommand }
{
    match (seed, replicas, lines) {
        (Some(seed), Some(replicas), Some(lines)) => {
            Some(of_schedule(is_trial, seed, replicas, lines))
        }
        _ => None,
    }
}

fn read_numbers(
    is_trial: bool,
    seed: &ArgText,
    replicas: &ArgText,
    lines: &ArgText,
) -> Option<Command>
    ensures value { result ≡ read_numbers (of_schedule is_trial) seed.now replicas.now lines.now }
    ensures fits { IfSome result IsCommand }
{
    let seed = number_in(0, u64::MAX, seed);
    let replicas = replicas_in(replicas);
    let lines = number_in(3, LINES, lines);
    with_numbers(is_trial, seed, replicas, lines)
}

fn generating(
    word: &ArgText,
    seed: &ArgText,
    replicas: &ArgText,
    lines: &ArgText,
) -> Option<Command>
    ensures value { result ≡ command_of (word.now ∷ seed.now ∷ replicas.now ∷ lines.now ∷ []) }
    ensures fits { IfSome result IsCommand }
{
    if word.as_slice() == b"generate".as_slice() {
        read_numbers(false, seed, replicas, lines)
    } else if word.as_slice() == b"trial".as_slice() {
        read_numbers(true, seed, replicas, lines)
    } else {
        None
    }
}

/// The command that words are. None says that they are none.
pub fn command_of(words: &[ArgText]) -> Option<Command>
    ensures value { result ≡ command_of words.now }
    ensures fits { IfSome result IsCommand }
{
    match words {
        [word] => word_alone(word),
        [word, id] => imaging(word, id),
        [word, seed, replicas, lines] => generating(word, seed, replicas, lines),
        _ => None,
    }
}
