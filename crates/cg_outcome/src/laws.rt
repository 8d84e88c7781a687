ghost use Rattle.cg_model.specs.World.{no_world};
ghost use Rattle.cg_model.specs.Run.{IsRunFrom};
ghost use Rattle.cg_model.specs.Agreement.{OrderGrows, Prefix, CreatorOrder, FoldAnswers, DirtyAnswers, OnePrimary, QuietSettles, MadeStays};
ghost use Rattle.cg_terms.specs.Linearizable.{Linearizable, StronglyLinearizable};
ghost use Rattle.cg_terms.specs.Guarantees.{Durable, ExactlyOnce, PrefixReads, NoSplitBrain};
ghost use Rattle.cg_outcome.specs.Taking.{OfSteps, IsNoted, IsOfRun, TellsOfRefusals, TellsOfLogs, IsImaged, RefusesExactly};

use crate::arg_text::ArgText;
use cg_agree::runs_agree;
use cg_compare::joins_are_told;
use cg_schedule::lines_are_exact;
use cg_session::session_lines_are_exact;
use cg_terms::agreement_gives_guarantees;

/// Whatever a command takes, a refusal tells of its line, the steps are those of a run, which agree, and the items are
/// numbered; the guarantees follow from that. What is told of logs is so.
pub fn outcomes_agree(words: &[ArgText])
    ensures refused { TellsOfRefusals words.now }
    ensures is_run { OfSteps words.now (IsRunFrom no_world) }
    ensures noted { IsNoted words.now }
    ensures of_run { IsOfRun words.now }
    ensures compared { TellsOfLogs words.now }
    ensures imaged { IsImaged words.now }
    ensures order_grows { OfSteps words.now OrderGrows }
    ensures prefix { OfSteps words.now Prefix }
    ensures creator_order { OfSteps words.now CreatorOrder }
    ensures fold_answers { OfSteps words.now FoldAnswers }
    ensures dirty_answers { OfSteps words.now DirtyAnswers }
    ensures one_primary { OfSteps words.now OnePrimary }
    ensures quiet_settles { OfSteps words.now QuietSettles }
    ensures made_stays { OfSteps words.now MadeStays }
    ensures refused_exactly { RefusesExactly words.now }
    ensures linearizable { OfSteps words.now Linearizable }
    ensures strongly_linearizable { OfSteps words.now StronglyLinearizable }
    ensures durable { OfSteps words.now Durable }
    ensures exactly_once { OfSteps words.now ExactlyOnce }
    ensures prefix_reads { OfSteps words.now PrefixReads }
    ensures no_split_brain { OfSteps words.now NoSplitBrain }
{
    lines_are_exact();
    session_lines_are_exact();
    joins_are_told();
    runs_agree();
    agreement_gives_guarantees();
}
