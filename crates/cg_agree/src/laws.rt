ghost use Rattle.cg_model.specs.EveryRun.{EveryRunAgrees};
ghost use Rattle.cg_model.specs.Making.{AlwaysMadeInBook};
ghost use Rattle.cg_model.specs.Standing.{AlwaysStands, AlwaysBooked, EventsUndoNothing, OrdersRunOn};
ghost use Rattle.cg_model.specs.Telling.{EveryRunTells};
ghost use Rattle.cg_model.specs.Total.{NeverMet};
ghost use Rattle.cg_model.specs.Touched.{OthersShowNothingNew};

/// The steps of every run agree: one order only grows, and what each replica holds, answers and shows is that of
/// a prefix of it.
pub fn runs_agree()
    ensures { EveryRunAgrees }
{}

/// All facts stand beside each world to which admitted events lead, from before the start on, and with them what each
/// disk has still to show.
pub fn facts_stand_beside_each_world()
    ensures { AlwaysStands }
{}

/// No event undoes anything: what one who is out of a configuration has received there stays as it is, who is out
/// stays out, and an attempt that is over stays over.
pub fn events_undo_nothing()
    ensures { EventsUndoNothing }
{}

/// Wherever the facts hold, what each replica holds and what an event brings to it stand in one book of actions:
/// no two of them have one name.
pub fn actions_stand_in_one_book()
    ensures { AlwaysBooked }
{}

/// No event meets a message that can't be used, an action that can't be placed, or an item that its sender lacks,
/// whether a turn stands or is struck: in a regular phase, as a member leaves, in an installation, on entering
/// and on recovering. What comes to one that has left, and behind an exchange that was cut short, is passed over
/// on purpose.
pub fn nothing_is_wrongly_ignored()
    ensures { NeverMet }
{}

/// What the steps of a run have shown stands for the world that they lead to: the order lines are its order, an
/// action was shown as made exactly where its cut has it, and the last printed line of each replica is the
/// replica's as it stands.
pub fn runs_tell_of_their_worlds()
    ensures { EveryRunTells }
{}

/// Of each creator an event shows as made the next ones behind those that were shown before, each as it stands in
/// the book of the chronicle.
pub fn made_actions_stand_in_the_book()
    ensures { AlwaysMadeInBook }
{}

/// Behind an admitted event, wherever admitted events lead to the world before it, the lines that differ from the
/// last printed ones are those of replicas that the event touches.
pub fn others_show_nothing_new()
    ensures { OthersShowNothingNew }
{}

/// In the order of each world to which admitted events lead every name is the next of its creator, so that none
/// stands there twice.
pub fn orders_run_on()
    ensures { OrdersRunOn }
{}
