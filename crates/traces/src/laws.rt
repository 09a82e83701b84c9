//! What holds of every run.
ghost use Rattle.std.specs.Prelude.{List};
ghost use Rattle.rules.specs.Targets.{Said};
ghost use Rattle.rules.specs.State.{Setup};
ghost use Rattle.traces.specs.Traces.{trace};
ghost use Rattle.traces.specs.Laws.{Lawful};

/// What holds of every trace.
pub fn every_trace()
    ensures law { (p : List Said) (u : Setup) → Lawful p u (trace p u) }
{}
