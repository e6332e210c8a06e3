//! Laws over the definitions. Each is the contract of a function that does nothing: a caller that
//! names it has the law.
ghost use Rattle.sdcl_restart.specs.Laws.{LubyEndsInAPower, LubyRepeats};

/// The two equations that give each term of Luby's sequence from the first place on.
pub fn luby_laws()
    ensures ends { LubyEndsInAPower }
    ensures repeats { LubyRepeats }
{}
