ghost use Rattle.std.specs.Prelude.{◌≡◌, ◌≤◌, ◌<◌, ℕ, length, Some, None};
ghost use Rattle.std.specs.List.{last_or};
ghost use Rattle.cg_schedule.specs.declared.event.Event.TheVariants.{End};
ghost use Rattle.cg_schedule.specs.Line.{first_state};
ghost use Rattle.cg_gen.specs.Generated.{generated};
ghost use Rattle.cg_gen.specs.GeneratedLaws.{AllStand};

/// Whatever the seed and the replicas: a schedule has as many events as lines were asked for, and of one line or more the last event is the
/// end. Of two lines or more each event may stand where it does: start first and once, and nothing behind the end.
pub fn generated_schedules_are_whole()
    ensures length { (seed replicas lines : ℕ) → length (generated seed replicas lines) ≡ lines }
    ensures end { (seed replicas lines : ℕ) → 1 ≤ lines → last_or None (generated seed replicas lines) ≡ Some End }
    ensures places { (seed replicas lines : ℕ) → 1 < lines → AllStand first_state (generated seed replicas lines) }
{}
