ghost use Rattle.std.specs.Prelude.{◌≡◌, ℕ, true, false, ◌<◌, ◌-◌, ◌==◌, ◌&&◌, not, find};
ghost use Rattle.cg_base.specs.Lists.{above_up_to};
ghost use Rattle.cg_group.specs.State.{has_received};
ghost use Rattle.cg_group.specs.Refusals.{is_missing, sender_at};
ghost use Rattle.cg_group.specs.Logs.{place_refusal};

use crate::Reason;
use crate::configuration_log::ConfigurationLog;
use cg_base::ReplicaId;

impl<M> ConfigurationLog<M> {
    /// Why a member can't receive a place: there is no such place, it has received it, or it lacks an earlier place of the same sender.
    pub(crate) fn place_refusal(&self, p: ReplicaId, place: u64) -> Option<Reason>
        ensures { result ≡ place_refusal self.now.configuration p place }
    {
        match self.get(place) {
            None => return Some(Reason::NoSuchPlace(place)),
            Some(_) => {}
        }
        if self.has_received(p, place) {
            return Some(Reason::AlreadyReceived(place));
        }
        match self.first_missing(p, place) {
            Some(earlier) => Some(Reason::EarlierMissing(earlier)),
            None => None,
        }
    }

    // the earliest place of the same sender that the member lacks
    fn first_missing(&self, p: ReplicaId, place: u64) -> Option<u64>
        ensures { result ≡ find (is_missing self.now.configuration p place) (above_up_to 0 (place - 1)) }
    {
        if self.has_all_before(p, place) {
            return None;
        }
        let sender = self.sender(place);
        for before in self.received_by(p) as u64..place.saturating_sub(1) {
            if self.lacks(p, sender, before + 1) {
                return Some(before + 1);
            }
        }
        None
    }

    /// The member is known to have received each place of the same sender before the given one. It looks no further back than
    /// to the last of these, so that a place that never comes costs no more with each place behind it.
    pub(crate) fn has_all_before(&self, p: ReplicaId, place: u64) -> bool
        ensures { result ≡ true → (earlier : ℕ) → 0 < earlier → earlier < place →
            is_missing self.now.configuration p place earlier ≡ false }
    {
        let sender = self.sender(place);
        let first = self.received_by(p) as u64;
        let mut last = place.saturating_sub(1);
        while last > first {
            if self.sender(last) == sender {
                return self.has_received_in_turn(p, last);
            }
            last -= 1;
        }
        true
    }

    // the sender of the message at a place, where there is one
    fn sender(&self, place: u64) -> u8
        ensures { result ≡ sender_at self.now.configuration place }
    {
        match self.get(place) {
            Some(placed) => placed.from.get(),
            None => 0,
        }
    }

    // the place is of that sender, and the member lacks it
    fn lacks(&self, p: ReplicaId, sender: u8, place: u64) -> bool
        ensures { result ≡ ((sender_at self.now.configuration place == sender)
            && not (has_received self.now.configuration p place)) }
    {
        self.sender(place) == sender && !self.has_received(p, place)
    }
}
