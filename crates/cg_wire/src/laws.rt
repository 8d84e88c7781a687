ghost use Rattle.std.specs.Prelude.{◌≡◌, Some};
ghost use Rattle.cg_codec.specs.Laws.{IsField, IsWhole, IsFrontOfNoOther};
ghost use Rattle.cg_wire.specs.declared.message.Msg.{Msg};
ghost use Rattle.cg_wire.specs.Limits.{IsSummary, IsMsg};
ghost use Rattle.cg_wire.specs.Bytes.{spelled_summary, spelled_msg};
ghost use Rattle.cg_wire.specs.Reading.{summary_reading, msg_reading, message_in};

use cg_action::actions_are_exact;

/// Messages are exactly their spellings: each one within the limits is read again as it was spelled, whatever follows it,
/// and what is read is a message within the limits, spelled so.
pub fn messages_are_exact()
    ensures summary { IsField IsSummary spelled_summary summary_reading }
    ensures message { IsField IsMsg spelled_msg msg_reading }
    ensures whole { IsWhole IsMsg spelled_msg msg_reading }
    ensures in_spelling { (m : Msg) → IsMsg m → message_in (spelled_msg m) ≡ Some m }
{
    actions_are_exact();
}

/// No spelling of a message is the front of another one's.
pub fn messages_stand_apart()
    ensures { IsFrontOfNoOther IsMsg spelled_msg }
{
    messages_are_exact();
}
