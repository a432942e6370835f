//! The law of every run of a world.
ghost use Rattle.std.specs.Prelude.{◌≡◌, false, List};
ghost use Rattle.std.specs.List.{AllByRecursion};
ghost use Rattle.dory_base.specs.declared.ids.Side.{Side};
ghost use Rattle.dory_run.specs.declared.event.Event.{Event};
ghost use Rattle.dory_run.specs.declared.event.Honest.{Honest};
ghost use Rattle.dory_run.specs.declared.setup.Setup.{Setup};
ghost use Rattle.dory_run.specs.Happening.{lies};
ghost use Rattle.dory_run.specs.Law.{AcceptsRight, AreWhole, HaveSeen};
ghost use Rattle.dory_run.specs.Run.{run_of};
ghost use Rattle.dory_run.specs.Start.{IsSetup};
ghost use Rattle.dory_run.specs.Worked.{IsDiverged, IsRemoved};

/// Whatever members begin, carry, lose, repeat and give up, in any order, and whatever bytes one of the two domains puts:
/// at each moment of the run, each history has each update at most once and whole; no member has seen more than an honest
/// domain has; and each search that an event ends accepted is right by each honest domain's history, or the other domain's
/// frame is the forgery.
pub fn every_run()
    ensures whole { (h : Honest) (s : Setup) (events : List Event) → IsSetup s → AllByRecursion (AreWhole s) (run_of h s events) }
    ensures seen { (h : Honest) (side : Side) → lies h side ≡ false → (s : Setup) (events : List Event) → IsSetup s → AllByRecursion (HaveSeen side) (run_of h s events) }
    ensures accepted { (h : Honest) (s : Setup) (events : List Event) → IsSetup s → AllByRecursion (AcceptsRight h s) (run_of h s events) }
{}

/// Two short runs are told as the definitions compute them: a removal of one member, and one of another that a lying lead
/// answers with an order of its own.
pub fn worked_runs()
    ensures removed { IsRemoved }
    ensures diverged { IsDiverged }
{}
