//! Restarts. By Luby, the k-th is due after 64 times the k-th term of his sequence. By Glue, one is
//! due where the learned clauses of late are worse than those of long: each learned clause moves
//! two averages of the glue towards its own, the fast by 1/32 and the slow by 1/4096 of the way
//! (Biere and Froehlich, 2015). The averages are whole numbers in units of 2 ^ -20 and stay below
//! 2 ^ 52. Each call takes constant time; `due` by Luby takes at most 33 steps.
ghost use Rattle.std.specs.Prelude.{◌≡◌, ◌+◌, ◌<◌};
ghost use Rattle.sdcl_restart.specs.Restart.{course_begun, with_clause_learned, is_restart_due};

use crate::luby::luby;
use std::marker::Model;

/// The rule by which restarts are due.
#[derive(Clone, Copy, Debug, PartialEq, Eq)]
pub enum RestartKind {
    Never,
    Luby,
    Glue,
}

/// The clauses that were learned since the last restart, the restarts that were made, and the
/// averages.
#[derive(Drop)]
pub struct Restart {
    kind: RestartKind,
    since: u32,
    made: u32,
    fast: u64,
    slow: u64,
}

impl Model for Restart {
    ghost use Rattle.std.specs.Prelude.{◌<◌, ◌^◌};
    ghost use Rattle.sdcl_restart.specs.Restart.{Course};

    ghost Value = { Course };

    ghost view = { λ r. record {
      kind = r.kind;
      since = r.since;
      made = r.made;
      fast = r.fast;
      slow = r.slow;
    } };

    ghost invariant = { λ r. (r.fast < 2 ^ 52) × (r.slow < 2 ^ 52) };
}

impl Restart {
    /// No clause learned and no restart made.
    pub fn new(kind: RestartKind) -> Restart
        ensures { result ≡ course_begun kind }
    {
        Restart {
            kind,
            since: 0,
            made: 0,
            fast: 0,
            slow: 0,
        }
    }

    /// A clause of that glue was learned.
    pub fn learned(&mut self, glue: u32)
        requires { self.old.since < 4294967295 }
        ensures { self.new ≡ with_clause_learned self.old glue }
    {
        let scaled = (glue as u64) * 1_048_576;
        self.since += 1;
        self.fast = self.fast - self.fast / 32 + scaled / 32;
        self.slow = self.slow - self.slow / 4096 + scaled / 4096;
    }

    /// Whether a restart is due.
    pub fn due(&self) -> bool
        ensures { result ≡ is_restart_due self.now }
    {
        match self.kind {
            RestartKind::Never => false,
            RestartKind::Luby => self.since as u64 >= 64 * luby(self.made as u64 + 1),
            RestartKind::Glue => self.since >= 50 && 4 * self.fast > 5 * self.slow,
        }
    }

    /// A restart was made. The averages go on.
    pub fn restarted(&mut self)
        requires { self.old.made < 4294967295 }
        ensures { self.new ≡ record self.old { since = 0; made = self.old.made + 1 } }
    {
        self.since = 0;
        self.made += 1;
    }
}
