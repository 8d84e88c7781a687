//! Which replicas an event touches.
ghost use Rattle.std.specs.Prelude.{◌≡◌};
ghost use Rattle.cg_model.specs.Touched.{touched};

use cg_base::IdSet;
use cg_schedule::Event;

/// The replicas whose lines may be news behind the event, by the law `others_show_nothing_new` of `cg_agree`. It
/// takes no memory.
#[tactic(auto, unfolding(cg_model::specs::Touched::touched))]
pub fn touched(event: &Event) -> IdSet
    ensures { result ≡ touched event.now }
{
    match event {
        Event::Start(set) => set.ids(),
        Event::Split(set) => *set,
        Event::Merge(set) => *set,
        Event::Request { p, .. } => IdSet::single(*p),
        Event::Recover(p) => IdSet::single(*p),
        Event::RecoverStopped { p, .. } => IdSet::single(*p),
        Event::Downgrade(p) => IdSet::single(*p),
        Event::Deliver { p, .. } => IdSet::single(*p),
        Event::Stop { p, .. } => IdSet::single(*p),
        Event::Fail { p, .. } => IdSet::single(*p),
        Event::Join { p, .. } => IdSet::single(*p),
        Event::Leave { p, .. } => IdSet::single(*p),
        Event::Transfer { joiner, .. } => IdSet::single(*joiner),
        Event::Weak { .. } | Event::Dirty { .. } => IdSet::empty(),
        Event::Show(_) | Event::ShowOrder => IdSet::empty(),
        Event::Order(_) | Event::Receive { .. } | Event::Gather => IdSet::empty(),
        Event::End | Event::Rounds(_) => IdSet::empty(),
    }
}
