//! What is done to the configuration of a number, where there is one.
ghost use Rattle.std.specs.Prelude.{◌≡◌, ℕ, ◌==◌, ◌+◌, if◌then◌else◌, OnOk};
ghost use Rattle.cg_group.specs.State.{changed_at};
ghost use Rattle.cg_group.specs.Events.{with_message, with_receipt};
ghost use Rattle.cg_group.specs.Logs.{RoomFor, configurations_of, with_all_receipts};

use crate::configuration_log::ConfigurationLog;
use cg_base::{NoMemory, ReplicaId};

// makes room for that many more messages
pub(crate) fn reserve_at<M>(
    logs: &mut [ConfigurationLog<M>],
    conf: u64,
    count: usize,
) -> Result<(), NoMemory>
    ensures same { configurations_of logs.new ≡ configurations_of logs.old }
    ensures kept { (k n : ℕ) → RoomFor logs.old k n → RoomFor logs.new k n }
    ensures room { OnOk result (RoomFor logs.new conf count) }
{
    if conf == 0 {
        return Ok(());
    }
    if conf > logs.len() as u64 {
        return Ok(());
    }
    let log = &mut logs[(conf - 1) as usize];
    log.reserve(count)
}

// a message gets the next place
pub(crate) fn append_at<M: Drop>(
    logs: &mut [ConfigurationLog<M>],
    conf: u64,
    from: ReplicaId,
    message: M,
)
    requires { RoomFor logs.old conf 1 }
    ensures changed { configurations_of logs.new ≡
        changed_at (λ c. with_message c from message) (configurations_of logs.old) conf }
    ensures room { (k n : ℕ) → RoomFor logs.old k ((if conf == k then 1 else 0) + n) → RoomFor logs.new k n }
{
    if conf == 0 {
        return;
    }
    if conf > logs.len() as u64 {
        return;
    }
    let log = &mut logs[(conf - 1) as usize];
    log.append(from, message);
}

// a member has received a place
pub(crate) fn receive_at<M>(logs: &mut [ConfigurationLog<M>], conf: u64, p: ReplicaId, place: u64)
    ensures { configurations_of logs.new ≡ changed_at (λ c. with_receipt c p place) (configurations_of logs.old) conf }
{
    if conf == 0 {
        return;
    }
    if conf > logs.len() as u64 {
        return;
    }
    let log = &mut logs[(conf - 1) as usize];
    log.receive(p, place);
}

// a member has received every place
pub(crate) fn receive_all_at<M>(logs: &mut [ConfigurationLog<M>], conf: u64, p: ReplicaId)
    ensures { configurations_of logs.new ≡ changed_at (λ c. with_all_receipts c p) (configurations_of logs.old) conf }
{
    if conf == 0 {
        return;
    }
    if conf > logs.len() as u64 {
        return;
    }
    let log = &mut logs[(conf - 1) as usize];
    log.receive_all(p);
}
