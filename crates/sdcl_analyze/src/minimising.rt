//! Which literals of a clause are implied by the others.
//!
//! A literal of the trail is covered where it stands on level 0, or where the other literals of its
//! reason are all in the clause or are the complements of covered ones (Sörensson and Biere,
//! Minimizing Learned Clauses, SAT 2009). The search goes along reasons with a stack of its own, so
//! that no chain of reasons is too long for it. Each variable is entered once in an analysis: one
//! that was entered and is not on the stack is covered exactly where it is marked so. The time is
//! that of the reasons of the variables that are entered.
ghost use Rattle.std.specs.Prelude.{◌≡◌, ◌≤◌, ◌<◌, ◌+◌, ◌-◌, ◌*◌, ℕ, true, false, [], ◌∷◌, ◌++◌};
ghost use Rattle.std.specs.Prelude.{length, vec_capacity};
ghost use Rattle.sdcl_base.specs.Literal.{Literal, has};
ghost use Rattle.sdcl_base.specs.Sets.{In};
ghost use Rattle.sdcl_analyze.specs.Numbers.{has_number, with_number};
ghost use Rattle.sdcl_analyze.specs.Marking.{GathersOn, lower_lits};
ghost use Rattle.sdcl_analyze.specs.Covering.{uncovered_of};
ghost use Rattle.sdcl_analyze.specs.Searching.{standing_of, KnowsBefore, FrameFits, Searched};
ghost use Rattle.sdcl_analyze.specs.Searching.{LookFinds, FitsAbove, TellsCovered};
ghost use Rattle.sdcl_trail.specs.Levels.{levels_of};

use crate::number_set::NumberSet;
use sdcl_base::{ClauseId, Lit};
use sdcl_store::Clauses;
use sdcl_trail::Trail;

// A variable whose reason is searched, and the place in the reason that the search has come to.
#[derive(Clone, Copy)]
pub(crate) struct Frame {
    pub(crate) var: u32,
    pub(crate) reason: ClauseId,
    pub(crate) at: u32,
}

// What the search knows of a variable.
enum Standing {
    Covered,
    Uncovered,
    // its reason was not searched yet
    Unknown(ClauseId),
}

// How far a reason's literals are covered.
enum Look {
    Covered,
    Uncovered,
    // all before this place are, and the variable there is to be entered first
    Waits(u32, u32, ClauseId),
}

// Appends the literals whose complements are not covered.
pub(crate) fn minimise<C: Clauses>(
    trail: &Trail,
    clauses: &C,
    lower: &[Lit],
    seen: &NumberSet,
    entered: &mut NumberSet,
    covered: &mut NumberSet,
    stack: &mut Vec<Frame>,
    clause: &mut Vec<Lit>,
)
    requires fits { FitsAbove (C.clauses clauses.now) trail.now }
    requires gathers { GathersOn trail.now seen.now.members lower.now }
    requires fresh { (entered.old.members ≡ []) × (covered.old.members ≡ [])
        × (stack.old.items ≡ []) }
    requires room { (trail.now.variables < seen.now.room) × (trail.now.variables < entered.old.room)
        × (trail.now.variables < covered.old.room) }
    requires memory { entered.old.room ≤ vec_capacity stack.old }
    requires space { length clause.old.items + length lower.now ≤ vec_capacity clause.old }
    ensures clause { clause.new.items ≡ clause.old.items
        ++ uncovered_of (C.clauses clauses.now) trail.now seen.now.members lower.now }
    ensures space { vec_capacity clause.old ≤ vec_capacity clause.new }
    ensures room { (entered.new.room ≡ entered.old.room) × (covered.new.room ≡ covered.old.room) }
    ensures memory { entered.new.room ≤ vec_capacity stack.new }
{
    for l in lower {
        if !is_covered(trail, clauses, seen, entered, covered, stack, l.var()) {
            if clause.push(*l).is_err() {
                unreachable!()
            }
        }
    }
}

// Whether the variable's literal, of a level below the last, is covered by the clause whose
// variables are seen.
pub(crate) fn is_covered<C: Clauses>(
    trail: &Trail,
    clauses: &C,
    seen: &NumberSet,
    entered: &mut NumberSet,
    covered: &mut NumberSet,
    stack: &mut Vec<Frame>,
    var: u32,
) -> bool
    requires fits { FitsAbove (C.clauses clauses.now) trail.now }
    requires below { (k : Literal) × In (lower_lits (levels_of trail.now)) k × (k.var ≡ var) }
    requires searched { Searched (C.clauses clauses.now) trail.now
        seen.now.members entered.old.members covered.old.members stack.old.items }
    requires empty { stack.old.items ≡ [] }
    requires room { (trail.now.variables < seen.now.room) × (trail.now.variables < entered.old.room)
        × (trail.now.variables < covered.old.room) }
    requires memory { entered.old.room ≤ vec_capacity stack.old }
    ensures value { TellsCovered (C.clauses clauses.now) trail.now seen.now.members var result }
    ensures searched { Searched (C.clauses clauses.now) trail.now
        seen.now.members entered.new.members covered.new.members stack.new.items }
    ensures empty { stack.new.items ≡ [] }
    ensures room { (entered.new.room ≡ entered.old.room) × (covered.new.room ≡ covered.old.room) }
    ensures memory { entered.new.room ≤ vec_capacity stack.new }
{
    let _level = trail.level();
    match known(trail, entered, covered, var) {
        Standing::Covered => return true,
        Standing::Uncovered => return false,
        Standing::Unknown(reason) => enter(entered, stack, var, reason),
    }
    while let Some(frame) = stack.pop() {
        go_on(trail, clauses, seen, entered, covered, stack, frame);
    }
    covered.contains(var)
}

// Decides the frame that was on top of the stack, or puts it back with the one that it waits for.
fn go_on<C: Clauses>(
    trail: &Trail,
    clauses: &C,
    seen: &NumberSet,
    entered: &mut NumberSet,
    covered: &mut NumberSet,
    stack: &mut Vec<Frame>,
    frame: Frame,
)
    requires fits { FitsAbove (C.clauses clauses.now) trail.now }
    requires searched { Searched (C.clauses clauses.now) trail.now
        seen.now.members entered.old.members covered.old.members
        (stack.old.items ++ frame ∷ []) }
    requires room { (trail.now.variables < seen.now.room) × (trail.now.variables < entered.old.room)
        × (trail.now.variables < covered.old.room) }
    requires memory { entered.old.room ≤ vec_capacity stack.old }
    ensures searched { Searched (C.clauses clauses.now) trail.now
        seen.now.members entered.new.members covered.new.members stack.new.items }
    ensures room { (entered.new.room ≡ entered.old.room) × (covered.new.room ≡ covered.old.room) }
    ensures memory { entered.new.room ≤ vec_capacity stack.new }
    ensures grows { (x : ℕ) → has_number entered.old.members x ≡ true
        → has_number entered.new.members x ≡ true }
    ensures less { (2 * (entered.new.room - length entered.new.members) + length stack.new.items
        < 2 * (entered.old.room - length entered.old.members) + length stack.old.items + 1) }
{
    let _level = trail.level();
    let _members = entered.members();
    match look_on(trail, clauses, seen, entered, covered, frame) {
        Look::Covered => covered.insert(frame.var),
        Look::Uncovered => {}
        Look::Waits(at, next, reason) => {
            put(stack, Frame { at, ..frame });
            enter(entered, stack, next, reason);
        }
    }
}

// What is known of the variable.
fn known(trail: &Trail, entered: &NumberSet, covered: &NumberSet, var: u32) -> Standing
    requires { (var < entered.now.room) × (var < covered.now.room) }
    ensures { result ≡ standing_of trail.now entered.now.members covered.now.members var }
{
    if trail.level_of(var) == Some(0) || covered.contains(var) {
        return Standing::Covered;
    }
    if entered.contains(var) {
        return Standing::Uncovered;
    }
    match trail.reason_of(var) {
        Some(reason) => Standing::Unknown(reason),
        None => Standing::Uncovered,
    }
}

// Looks at the literals of the frame's reason from its place on.
fn look_on<C: Clauses>(
    trail: &Trail,
    clauses: &C,
    seen: &NumberSet,
    entered: &NumberSet,
    covered: &NumberSet,
    frame: Frame,
) -> Look
    requires fits { FitsAbove (C.clauses clauses.now) trail.now }
    requires frame { FrameFits (C.clauses clauses.now) trail.now
        seen.now.members entered.now.members frame }
    requires knows { KnowsBefore (C.clauses clauses.now) trail.now
        seen.now.members entered.now.members covered.now.members frame.var }
    requires room { (trail.now.variables < seen.now.room) × (trail.now.variables < entered.now.room)
        × (trail.now.variables < covered.now.room) }
    ensures { LookFinds (C.clauses clauses.now) trail.now
        seen.now.members entered.now.members frame result }
{
    let _level = trail.level();
    for at in frame.at..clauses.length(frame.reason) {
        let var = clauses.literal(frame.reason, at).var();
        if var != frame.var && !seen.contains(var) {
            match known(trail, entered, covered, var) {
                Standing::Covered => {}
                Standing::Uncovered => return Look::Uncovered,
                Standing::Unknown(reason) => return Look::Waits(at, var, reason),
            }
        }
    }
    Look::Covered
}

// Puts a frame on the stack.
fn put(stack: &mut Vec<Frame>, frame: Frame)
    requires { length stack.old.items < vec_capacity stack.old }
    ensures items { stack.new.items ≡ stack.old.items ++ frame ∷ [] }
    ensures memory { vec_capacity stack.old ≤ vec_capacity stack.new }
{
    if stack.push(frame).is_err() {
        unreachable!()
    }
}

// Puts a variable on the stack that was not entered before.
fn enter(entered: &mut NumberSet, stack: &mut Vec<Frame>, var: u32, reason: ClauseId)
    requires fresh { has_number entered.old.members var ≡ false }
    requires within { var < entered.old.room }
    requires memory { entered.old.room ≤ vec_capacity stack.old }
    requires few { length stack.old.items ≤ length entered.old.members }
    ensures entered { entered.new ≡ with_number entered.old var }
    ensures length { (length entered.new.members ≡ length entered.old.members + 1)
        × (length entered.new.members ≤ entered.old.room) }
    ensures items { stack.new.items ≡ stack.old.items
        ++ record { var = var; reason = reason; at = 0 } ∷ [] }
    ensures memory { vec_capacity stack.old ≤ vec_capacity stack.new }
{
    entered.insert(var);
    let _members = entered.members();
    let frame = Frame { var, reason, at: 0 };
    put(stack, frame);
}
