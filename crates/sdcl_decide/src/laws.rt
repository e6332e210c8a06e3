//! Laws over the definitions. Each is the contract of a function that does nothing: a caller that
//! names it has the law.
ghost use Rattle.sdcl_decide.specs.Front.{FrontStarts, FrontBumps, FrontDecides};
ghost use Rattle.sdcl_decide.specs.InStep.{InStepStarts, InStepSettles};
ghost use Rattle.sdcl_decide.specs.InStep.{InStepPutsBack, InStepTurns};

/// The order by the scores of MoveToFront is a list of the variables, whose first open one is
/// decided, and to whose front a bump brings its variables.
pub fn front_laws()
    ensures starts { FrontStarts }
    ensures bumps { FrontBumps }
    ensures decides { FrontDecides }
{}

/// With `settle`, and `save` for each literal that leaves the trail, every variable that was passed
/// stays assigned, so that `next` decides by the rule.
pub fn in_step_laws()
    ensures starts { InStepStarts }
    ensures settles { InStepSettles }
    ensures puts_back { InStepPutsBack }
    ensures turns { InStepTurns }
{}
