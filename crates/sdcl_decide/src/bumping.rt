//! What a bump does to the scores.
//!
//! In Scored the increment grows by a sixteenth with each bump, so that what came late counts most.
//! Before it could overflow, all is divided by 2 ^ 40: that takes time linear in the number of
//! variables, and comes after some 400 bumps at the soonest. In MoveToFront the score is the number
//! of the bump and, behind it, the variable: of one bump the greatest is foremost, whatever the
//! order in which they are given.
ghost use Rattle.std.specs.Prelude.{◌≡◌, ◌+◌, ◌^◌, ◌<◌, ◌≤◌, ◌==◌, length, All};
ghost use Rattle.std.specs.List.{IsDistinct};
ghost use Rattle.sdcl_decide.specs.Deciding.{next_bump, fronted, raised, with_scores, is_high};
ghost use Rattle.sdcl_decide.specs.Deciding.{bumped_scores, bumped_step, AreAtMost, IsBounded};

use crate::decider::DecideKind;
use crate::queue::{DIVISOR, Queue};

/// The number at which those of bumps stand still. No run has so many bumps: each comes with a
/// clause that is learned.
const LAST_BUMP: u64 = 2_199_023_255_552;

/// A score or an increment above this is too great.
const LIMIT: u64 = 1_152_921_504_606_846_976;

// The number of the bump after that one.
fn following(last: u64) -> u64
    requires { last ≤ 2 ^ 41 }
    ensures { result ≡ next_bump last }
{
    if last < LAST_BUMP { last + 1 } else { last }
}

/// Brings variables to the front, and answers the number of this bump.
pub(crate) fn bring_to_front(queue: &mut Queue, last: u64, vars: &[u32]) -> u64
    requires range { All (λ x. (1 ≤ x) × (x ≤ queue.old.variables)) vars.now }
    requires bounded { IsBounded DecideKind.MoveToFront last queue.old.scores }
    ensures number { result ≡ next_bump last }
    ensures scores { queue.new ≡ with_scores queue.old
        (fronted (next_bump last) vars.now queue.old.scores) }
    ensures width { length queue.new.scores ≡ length queue.old.scores }
    ensures bounded { IsBounded DecideKind.MoveToFront result queue.new.scores }
{
    let number = following(last);
    for x in vars {
        queue.raise(*x, number * 4_194_304 + *x as u64);
    }
    number
}

/// Adds an increment to the scores of variables, and answers the next one.
pub(crate) fn add_to_scores(queue: &mut Queue, step: u64, vars: &[u32]) -> u64
    requires range { All (λ x. (1 ≤ x) × (x ≤ queue.old.variables)) vars.now }
    requires distinct { IsDistinct (λ x y. x == y) vars.now }
    requires width { length queue.old.scores ≡ queue.old.variables + 1 }
    requires bounded { IsBounded DecideKind.Scored step queue.old.scores }
    ensures scores { queue.new ≡ with_scores queue.old
        (bumped_scores DecideKind.Scored step vars.now queue.old.scores) }
    ensures step { result ≡ bumped_step DecideKind.Scored step vars.now queue.old.scores }
    ensures width { length queue.new.scores ≡ length queue.old.scores }
    ensures bounded { IsBounded DecideKind.Scored result queue.new.scores }
{
    let high = raise_all(queue, step, vars);
    let next = step + step / 16;
    if high || next > LIMIT {
        queue.divide();
        (next / DIVISOR).max(1)
    } else {
        next
    }
}

// Adds an increment to the scores of variables, and answers whether one is then too great.
fn raise_all(queue: &mut Queue, step: u64, vars: &[u32]) -> bool
    requires range { All (λ x. (1 ≤ x) × (x ≤ queue.old.variables)) vars.now }
    requires distinct { IsDistinct (λ x y. x == y) vars.now }
    requires width { length queue.old.scores ≡ queue.old.variables + 1 }
    requires bounded { IsBounded DecideKind.Scored step queue.old.scores }
    ensures scores { queue.new ≡ with_scores queue.old (raised step vars.now queue.old.scores) }
    ensures high { result ≡ is_high queue.new.scores }
    ensures width { length queue.new.scores ≡ length queue.old.scores }
    ensures low { AreAtMost (2 ^ 61) queue.new.scores }
{
    let mut high = false;
    for x in vars {
        let score = queue.score(*x) + step;
        queue.raise(*x, score);
        high = high || score > LIMIT;
    }
    high
}
