//! Reductions of the learned clauses: the first is due after 2000 learned clauses, and each waits
//! for 300 more than the one before.
ghost use Rattle.std.specs.Prelude.{◌≡◌, ◌+◌, ◌<◌};
ghost use Rattle.sdcl_restart.specs.Reductions.{counts_begun, is_reduction_due};

use std::marker::Model;

/// The clauses that were learned since the last reduction, and the reductions that were made.
#[derive(Drop)]
pub struct Reductions {
    since: u32,
    made: u32,
}

impl Model for Reductions {
    ghost use Rattle.sdcl_restart.specs.Reductions.{Counts};

    ghost Value = { Counts };

    ghost view = { λ r. record { since = r.since; made = r.made } };
}

impl Reductions {
    /// No clause learned and no reduction made.
    pub fn new() -> Reductions
        ensures { result ≡ counts_begun }
    {
        Reductions { since: 0, made: 0 }
    }

    /// A clause was learned.
    pub fn learned(&mut self)
        requires { self.old.since < 4294967295 }
        ensures { self.new ≡ record self.old { since = self.old.since + 1 } }
    {
        self.since += 1;
    }

    /// Whether a reduction is due.
    pub fn due(&self) -> bool
        ensures { result ≡ is_reduction_due self.now }
    {
        self.since as u64 >= 2000 + 300 * (self.made as u64)
    }

    /// A reduction was made.
    pub fn reduced(&mut self)
        requires { self.old.made < 4294967295 }
        ensures { self.new ≡ record { since = 0; made = self.old.made + 1 } }
    {
        self.since = 0;
        self.made += 1;
    }
}
