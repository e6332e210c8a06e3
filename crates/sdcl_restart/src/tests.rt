//! The schedules against values that were worked out by hand, and by another program where it is
//! said.
ghost use Rattle.std.specs.Prelude.{◌≡◌, ◌+◌, ◌<◌};

use crate::luby::luby;
use crate::{Reductions, Restart, RestartKind};
use std::test::Fail;

// Learns clauses, as the reductions count them.
fn learn_for_reductions(reductions: &mut Reductions, clauses: u32)
    requires { reductions.old.since + clauses < 4294967296 }
    ensures { reductions.new ≡ record reductions.old { since = reductions.old.since + clauses } }
{
    for n in 0..clauses {
        reductions.learned();
    }
}

// Learns clauses of one glue, as the restarts count them.
fn learn(restart: &mut Restart, glue: u32, clauses: u32)
    requires { restart.old.since + clauses < 4294967296 }
    ensures since { restart.new.since ≡ restart.old.since + clauses }
    ensures made { restart.new.made ≡ restart.old.made }
{
    for n in 0..clauses {
        restart.learned(glue);
    }
}

#[test]
fn each_reduction_waits_for_300_clauses_more(rt: HostRuntime) {
    let mut reductions = Reductions::new();
    learn_for_reductions(&mut reductions, 1999);
    assert!(rt; !reductions.due());
    learn_for_reductions(&mut reductions, 1);
    assert!(rt; reductions.due());
    reductions.reduced();
    learn_for_reductions(&mut reductions, 2299);
    assert!(rt; !reductions.due());
    learn_for_reductions(&mut reductions, 1);
    assert!(rt; reductions.due());
}

#[test]
fn luby_has_its_first_31_terms(rt: HostRuntime) {
    let terms = [
        1u64, 1, 2, 1, 1, 2, 4, 1, 1, 2, 1, 1, 2, 4, 8, 1, 1, 2, 1, 1, 2, 4, 1, 1, 2, 1, 1, 2, 4,
        8, 16,
    ];
    for (index, term) in terms.iter().enumerate() {
        assert_eq!(rt; luby(index as u64 + 1), *term, "at {index}");
    }
}

// The clauses after which a restart is due, of the first so many with a glue of 1.
fn restarts(rt: &HostRuntime, kind: RestartKind, clauses: u32) -> Result<Vec<u32>, Fail>
    requires { clauses < 4294967295 }
{
    let mut restart = Restart::new(kind);
    let mut due = Vec::new(rt.alloc());
    for n in 0..clauses {
        restart.learned(1);
        if restart.due() {
            due.push(n + 1)?;
            restart.restarted();
        }
    }
    Ok(due)
}

#[test]
fn restarts_by_luby_are_due_after_64_times_its_terms(rt: HostRuntime) -> Result<(), Fail> {
    let due = restarts(&rt, RestartKind::Luby, 256)?;
    assert_eq!(rt; due.as_slice(), [64u32, 128, 256].as_slice());
    let never = restarts(&rt, RestartKind::Never, 256)?;
    assert_eq!(rt; never.len(), 0);
    Ok(())
}

#[test]
fn restarts_by_glue_wait_for_50_clauses(rt: HostRuntime) {
    let mut restart = Restart::new(RestartKind::Glue);
    learn(&mut restart, 1, 49);
    assert!(rt; !restart.due());
    learn(&mut restart, 1, 1);
    assert!(rt; restart.due());
    restart.restarted();
    assert!(rt; !restart.due());
}

// With one glue for all clauses the slow average comes near the fast one in the end. The place is
// that of another program.
#[test]
fn averages_of_one_glue_meet(rt: HostRuntime) {
    let mut restart = Restart::new(RestartKind::Glue);
    learn(&mut restart, 5, 6585);
    assert!(rt; restart.due());
    learn(&mut restart, 5, 1);
    assert!(rt; !restart.due());
}
