//! Marks of the variables of a clause under a trail.
ghost use Rattle.std.specs.Prelude.{◌≡◌, ◌≤◌, ◌<◌, true, [], ◌∷◌, length, vec_capacity};
ghost use Rattle.std.specs.Prelude.{if◌then◌else◌};
ghost use Rattle.sdcl_base.specs.Literal.{Literal};
ghost use Rattle.sdcl_base.specs.Sets.{In};
ghost use Rattle.sdcl_store.specs.Slots.{is_alive, clause_of};
ghost use Rattle.sdcl_analyze.specs.Numbers.{with_number, with_variables};
ghost use Rattle.sdcl_analyze.specs.Marking.{IsMarkable, GathersOn, BecomeSeenOn};

use crate::number_set::NumberSet;
use sdcl_base::{ClauseId, Lit};
use sdcl_store::Clauses;
use sdcl_trail::Trail;

// Marks the variable of a literal that is false under the trail, and puts the literal into `lower`
// where it is false below the last level. Answers whether the variable is a new one of the last
// level.
fn mark(trail: &Trail, l: Lit, seen: &mut NumberSet, lower: &mut Vec<Lit>) -> bool
    requires on { IsMarkable trail.now.lits seen.old.members l }
    requires room { trail.now.variables < seen.old.room }
    requires memory { seen.old.room ≤ vec_capacity lower.old }
    requires gathers { GathersOn trail.now seen.old.members lower.old.items }
    ensures seen { seen.new ≡ with_number seen.old l.var }
    ensures gathers { GathersOn trail.now seen.new.members lower.new.items }
    ensures opens { BecomeSeenOn trail.now seen.old.members seen.new.members (l ∷ [])
        (if result then 1 else 0) }
    ensures memory { seen.new.room ≤ vec_capacity lower.new }
{
    let last = trail.level();
    let var = l.var();
    if seen.contains(var) {
        return false;
    }
    seen.insert(var);
    if trail.level_of(var) == Some(last) {
        return true;
    }
    let _most = seen.members();
    if lower.push(l).is_err() {
        unreachable!()
    }
    false
}

// Marks the variables of a clause. Answers how many of them are new ones of the last level.
pub(crate) fn mark_all<C: Clauses>(
    trail: &Trail,
    clauses: &C,
    id: ClauseId,
    seen: &mut NumberSet,
    lower: &mut Vec<Lit>,
) -> usize
    requires alive { is_alive (C.clauses clauses.now) id.0 ≡ true }
    requires on { (l : Literal) → In (clause_of (C.clauses clauses.now) id.0) l
        → IsMarkable trail.now.lits seen.old.members l }
    requires room { trail.now.variables < seen.old.room }
    requires memory { seen.old.room ≤ vec_capacity lower.old }
    requires gathers { GathersOn trail.now seen.old.members lower.old.items }
    ensures seen { seen.new ≡ with_variables seen.old (clause_of (C.clauses clauses.now) id.0) }
    ensures gathers { GathersOn trail.now seen.new.members lower.new.items }
    ensures opens { BecomeSeenOn trail.now seen.old.members seen.new.members
        (clause_of (C.clauses clauses.now) id.0) result }
    ensures memory { seen.new.room ≤ vec_capacity lower.new }
{
    let mut opened = 0;
    for at in 0..clauses.length(id) {
        if mark(trail, clauses.literal(id, at), seen, lower) {
            opened += 1;
        }
    }
    opened
}
