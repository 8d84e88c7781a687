ghost use Rattle.std.specs.Prelude.{◌≡◌, ◌+◌, ◌<◌, false, []};
ghost use Rattle.cg_base.specs.declared.limits.TheConstants.{COUNT_LIMIT};
ghost use Rattle.cg_items.specs.declared.companion.Companion.TheVariants.{Followers};
ghost use Rattle.cg_items.specs.declared.companion.Companion.TheVariants.{Relaxed as MadeActions};
ghost use Rattle.cg_items.specs.declared.companion.Companion.TheVariants.{Sessions as OpenSessions};
ghost use Rattle.cg_model.specs.World.{no_world};
ghost use Rattle.cg_model.specs.Run.{IsRunFrom};
ghost use Rattle.cg_model.specs.Agreement.{OrderGrows, Prefix, CreatorOrder, FoldAnswers, DirtyAnswers, OnePrimary, QuietSettles, MadeStays};
ghost use Rattle.cg_terms.specs.Linearizable.{Linearizable, StronglyLinearizable};
ghost use Rattle.cg_terms.specs.Guarantees.{Durable, ExactlyOnce, PrefixReads, NoSplitBrain};
ghost use Rattle.cg_items.specs.FollowersAgree.{FollowersAgree};
ghost use Rattle.cg_items.specs.LogsShown.{LogsAgree};
ghost use Rattle.cg_items.specs.RelaxedAgree.{RelaxedAgree};
ghost use Rattle.cg_items.specs.SessionsAgree.{SessionsAgree};
ghost use Rattle.cg_outcome.specs.Commands.{command_of, reads_input};
ghost use Rattle.cg_outcome.specs.Status.{write_faults};
ghost use Rattle.cg_outcome.specs.Taking.{Runs, ReadCause, Completes, OfItems, OfSteps, IsNoted, IsOfRun, TellsOfRefusals, TellsOfLogs, IsImaged, RefusesExactly};

use crate::agreement::items_agree;
use crate::imaging::image_replica;
use crate::inspecting::inspect_input;
use crate::streaming::replay_alone;
use crate::trial::try_schedule;
use cg_follower_list::FollowerList;
use cg_io::{Sink, Source};
use cg_made_rows::MadeRows;
use cg_outcome::{
    ArgText, Command, Companion, Report, Status, command_of, finish, outcomes_agree, put_schedule,
};
use cg_session_list::SessionList;
use std::alloc::Global;

fn no_followers(alloc: Global) -> Companion
    ensures { result ≡ Followers [] }
{
    Companion::Followers(FollowerList::new(alloc))
}

fn nothing_made(alloc: Global) -> Companion
    ensures { result ≡ MadeActions [] }
{
    Companion::Relaxed(MadeRows::new(alloc))
}

fn no_sessions(alloc: Global) -> Companion
    ensures { result ≡ OpenSessions [] }
{
    Companion::Sessions(SessionList::new(alloc))
}

// Runs a command, or tells how the program is used.
fn run_command<S: Source, K: Sink>(
    alloc: Global,
    words: &[ArgText],
    input: &mut S,
    output: &mut K,
) -> Status
    requires few_read_faults { (S.view input.old).faults < COUNT_LIMIT }
    requires few_write_faults { (K.view output.old).faults < COUNT_LIMIT }
    ensures ran { Runs (command_of words.now) (S.view input.old) (S.view input.new) (K.view output.old)
        (K.view output.new) result }
    ensures usage { reads_input (command_of words.now) ≡ false → S.view input.new ≡ S.view input.old }
    ensures read_fault { ReadCause (S.view input.old) (S.view input.new) result }
    ensures write_fault { (K.view output.new).faults ≡ (K.view output.old).faults + write_faults result }
{
    match command_of(words) {
        None => finish(alloc, output, Report::Whole, Status::Usage, 0, 0),
        Some(Command::Replay(report)) => {
            replay_alone(alloc, input, output, report, Companion::Alone)
        }
        Some(Command::Follow) => {
            replay_alone(alloc, input, output, Report::Whole, no_followers(alloc))
        }
        Some(Command::Relaxed) => {
            replay_alone(alloc, input, output, Report::Whole, nothing_made(alloc))
        }
        Some(Command::Sessions) => {
            replay_alone(alloc, input, output, Report::Whole, no_sessions(alloc))
        }
        Some(Command::Compare) => {
            replay_alone(alloc, input, output, Report::Joined, Companion::Comparing)
        }
        Some(Command::Image { replica }) => image_replica(alloc, input, output, replica),
        Some(Command::Inspect) => inspect_input(alloc, input, output),
        Some(
            Command::Generate {
                seed,
                replicas,
                lines,
            },
        ) => put_schedule(alloc, output, seed, replicas, lines),
        Some(
            Command::Trial {
                seed,
                replicas,
                lines,
            },
        ) => try_schedule(alloc, output, seed, replicas, lines),
    }
}

/// Runs a command: what it puts is the text of the outcome of what it took.
pub fn run<S: Source, K: Sink>(
    alloc: Global,
    words: &[ArgText],
    input: &mut S,
    output: &mut K,
) -> Status
    requires few_read_faults { (S.view input.old).faults < COUNT_LIMIT }
    requires few_write_faults { (K.view output.old).faults < COUNT_LIMIT }

    // At most the input's limit and one byte were taken, and what was put and the status are what these bytes come to. All
    // but the last 4,096 of them had been gone through before the last take: they come to no finding, and what they come to
    // was put; so the line of an entry that wasn't wholly put ends among the last 4,096 bytes. Where a line is the first
    // finding, at most 4,096 bytes past its end were taken.
    ensures ran { Runs (command_of words.now) (S.view input.old) (S.view input.new) (K.view output.old)
        (K.view output.new) result }

    // Without a command that reads the input nothing is taken.
    ensures usage { reads_input (command_of words.now) ≡ false → S.view input.new ≡ S.view input.old }

    // Where the status tells of a failed take one failed, and else none did, unless a put failed or memory was refused; a put
    // failed exactly where the status tells of that.
    ensures read_fault { ReadCause (S.view input.old) (S.view input.new) result }
    ensures write_fault { (K.view output.new).faults ≡ (K.view output.old).faults + write_faults result }

    // Where no take and no put failed, and the whole input is within the limits, the run comes to what the whole input comes
    // to, and all of that was put; or memory was refused. So an input that comes to its end is done, with the whole report.
    ensures completes { Completes (command_of words.now) (S.view input.old) (S.view input.new) (K.view output.old)
        (K.view output.new) result }

    // What is made is numbered from 1, up to the limit, and what stands beside the world in the report comes of it.
    ensures noted { IsNoted words.now }
    ensures of_run { IsOfRun words.now }

    // What is told of logs holds of them: whether they are parts of one order, and what all such orders share.
    ensures compared { TellsOfLogs words.now }

    // Where the image of a replica's disk is put and the run is done, the replica has begun.
    ensures imaged { IsImaged words.now }

    // A refusal tells of the line whose event isn't admitted, and of the first reason.
    ensures refused { TellsOfRefusals words.now }

    // The steps are those of a run, and agree on one order of actions and on all that is read from it.
    ensures is_run { OfSteps words.now (IsRunFrom no_world) }
    ensures order_grows { OfSteps words.now OrderGrows }
    ensures prefix { OfSteps words.now Prefix }
    ensures creator_order { OfSteps words.now CreatorOrder }
    ensures fold_answers { OfSteps words.now FoldAnswers }
    ensures dirty_answers { OfSteps words.now DirtyAnswers }
    ensures one_primary { OfSteps words.now OnePrimary }
    ensures quiet_settles { OfSteps words.now QuietSettles }
    ensures made_stays { OfSteps words.now MadeStays }
    ensures refused_exactly { RefusesExactly words.now }

    // So a run is linearizable and, an action being a transaction, strictly serializable: each reply is that of one database
    // alone, which takes the actions one after another, and what was replied to before another action was made comes first.
    // What was acknowledged stays, whichever replicas crash; each action counts once; weak answers are those of prefixes, which
    // never become shorter; and no two parts of the network go ways of their own.
    ensures linearizable { OfSteps words.now Linearizable }
    ensures strongly_linearizable { OfSteps words.now StronglyLinearizable }
    ensures durable { OfSteps words.now Durable }
    ensures exactly_once { OfSteps words.now ExactlyOnce }
    ensures prefix_reads { OfSteps words.now PrefixReads }
    ensures no_split_brain { OfSteps words.now NoSplitBrain }

    // A session reads prefixes of the order that never become shorter and have what it wrote and was told of; a follower is
    // a prefix, which never becomes shorter; a relaxed query shows what the actions come to that the replica knows; and the
    // logs that are shown agree.
    ensures sessions { OfItems words.now SessionsAgree }
    ensures followers { OfItems words.now FollowersAgree }
    ensures relaxed { OfItems words.now RelaxedAgree }
    ensures logs_agree { OfSteps words.now LogsAgree }
{
    outcomes_agree(words);
    items_agree(words);
    run_command(alloc, words, input, output)
}
