//! Decisions that were worked out by hand.
ghost use Rattle.std.specs.Prelude.{◌≡◌, ◌≤◌, []};

use crate::{DecideKind, Decider};
use sdcl_base::{Lit, NoMemory};
use sdcl_trail::Trail;
use std::alloc::Global;
use std::test::Fail;

// The number of the decision, or 0 for none.
fn number(decider: &Decider, trail: &Trail) -> i32
    requires decider { decider.now.ranking.variables ≡ 9 }
    requires trail { trail.now.variables ≡ 9 }
{
    match decider.next(trail) {
        Some(l) => l.number(),
        None => 0,
    }
}

// What is decided at the start, after a bump, after a later one that shares a variable with it, where a literal was
// saved, and where that literal is on the trail.
fn decisions(decider: &mut Decider, trail: &mut Trail, l: Lit) -> [i32; 5]
    requires decider { decider.old.ranking.variables ≡ 9 }
    requires trail { (trail.old.variables ≡ 9) × (trail.old.lits ≡ []) }
    requires range { l.var ≤ 9 }
{
    let first = number(decider, trail);
    decider.bump(&[5, 3, 4]);
    let bumped = number(decider, trail);
    decider.bump(&[4, 7]);
    let later = number(decider, trail);
    decider.save(l);
    let saved = number(decider, trail);
    trail.push(l, None);
    decider.settle(trail);
    [first, bumped, later, saved, number(decider, trail)]
}

// The same of nothing but nine variables.
fn decided(alloc: Global, kind: DecideKind, l: Lit) -> Result<[i32; 5], NoMemory>
    requires { l.var ≤ 9 }
{
    let mut trail = Trail::new(alloc, 9)?;
    let mut decider = Decider::new(alloc, kind, 9)?;
    Ok(decisions(&mut decider, &mut trail, l))
}

#[test]
fn each_kind_decides_by_its_rule(rt: HostRuntime) -> Result<(), Fail> {
    let alloc = rt.alloc();
    let l = Lit::from_number(-7).ok_or("no literal")?;
    let m = Lit::from_number(-4).ok_or("no literal")?;
    assert!(rt; l.var() <= 9 && m.var() <= 9);
    // neither a bump nor a saved sign counts
    assert_eq!(rt; decided(alloc, DecideKind::Static, l), Ok([1, 1, 1, 1, 1]));
    // the greatest of one bump is foremost, whatever their order
    assert_eq!(rt;
        decided(alloc, DecideKind::MoveToFront, l),
        Ok([1, 5, 7, -7, 4])
    );
    // of equal scores the lowest variable, and two bumps outweigh one that is later
    assert_eq!(rt; decided(alloc, DecideKind::Scored, m), Ok([1, 3, 4, -4, 7]));
    Ok(())
}
