//! Reducts and attempts: on formulas whose answers were worked out by hand, and beside a plain program on formulas and
//! decisions that a generator makes. A set of literals is its mask.
ghost use Rattle.std.specs.Prelude.{◌≡◌, ◌<◌, ◌≤◌, ◌+◌, false, length};
ghost use Rattle.sdcl_base.specs.Reduct.{is_off};
ghost use Rattle.sdcl_prop.specs.Seeing.{CompleteOver};
ghost use Rattle.sdcl_inner.specs.Searching.{state_of, IsInOrder};

use super::journals::{Generator, formula_of};
use super::parts::{mask_from, mask_of, preferred};
use super::sets::{
    bit, closure, complements, filtered, has_model, has_witness, is_pr, over, positive, refutes,
};
use super::{EITHER, store_of};
use crate::attempt;
use crate::attempted::Attempt;
use sdcl_base::{ClauseId, NoMemory, ReductMode};
use sdcl_inner::preferring::descend;
use sdcl_inner::search::Search;
use sdcl_reduct::members;
use sdcl_store::{Clauses, Store};
use sdcl_trail::Trail;
use sdcl_witness::Witness;
use std::alloc::Global;
use std::process::Abort;
use std::test::Fail;

const FORMULAS: u32 = 600;

const VARIABLES: u32 = 4;

// How an attempt ended.
#[derive(Clone, Copy, Debug, PartialEq, Eq)]
enum Ending {
    Witnessed,
    NoWitness,
    Spent,
}

// An attempt: the trail's literals before and after, its decisions, how it ended, and what it left.
#[derive(Clone, Copy)]
struct Found {
    set: u32,
    after: u32,
    decisions: u32,
    ending: Ending,
    // of a spent budget
    variables: u32,
    kept: u64,
    clause: u32,
    witness: u32,
}

fn decisions_of(trail: &Trail) -> u32 {
    let mut set = 0;
    for level in 1..trail.level() + 1 {
        if let Some(l) = trail.decision(level) {
            set |= bit(l.code());
        }
    }
    set
}

// Attempts over a trail that is complete.
fn attempt_here(
    alloc: Global,
    mode: ReductMode,
    search: &mut Search<Store>,
    inner_budget: u64,
    out: &mut Witness,
) -> Result<Found, NoMemory>
    requires mode { is_off mode ≡ false }
    requires in_order { IsInOrder (state_of (λ s. s.slots) search.old) }
    requires complete { CompleteOver search.old.clauses.slots search.old.trail }
    requires decided { 0 < length search.old.trail.starts }
    requires wide { search.old.variables ≤ out.old.room }
    requires room { length search.old.clauses.slots + inner_budget < 2000000 }
{
    let _level = search.trail.level();
    let set = mask_of(search.trail.lits());
    let decisions = decisions_of(&search.trail);
    let answer = attempt(
        alloc,
        mode,
        &search.clauses,
        &mut search.engine,
        &mut search.trail,
        inner_budget,
        out,
    )?;
    let (ending, variables, kept) = match &answer {
        Attempt::Witnessed => (Ending::Witnessed, 0, 0),
        Attempt::NoWitness => (Ending::NoWitness, 0, 0),
        Attempt::InnerSpent { variables, kept } => (Ending::Spent, *variables, kept.count()),
    };
    Ok(Found {
        set,
        after: mask_of(search.trail.lits()),
        decisions,
        ending,
        variables,
        kept,
        clause: mask_of(out.clause_of_decisions()),
        witness: mask_of(out.lits()),
    })
}

// Whether the clauses, which are read literal by literal, are these in this order.
fn are_lent<C: Clauses>(clauses: &C, plain: &[u32]) -> bool {
    let mut count = 0usize;
    let mut same = true;
    for slot in 0..clauses.slots() {
        let id = ClauseId(slot);
        if clauses.alive(id) {
            let mut mask = 0;
            for at in 0..clauses.length(id) {
                mask |= bit(clauses.literal(id, at).code());
            }
            same = same && plain.get(count) == Some(&mask);
            count = count.saturating_add(1);
        }
    }
    same && count == plain.len()
}

// Whether the mode's reduct lends these clauses.
fn lends(
    alloc: Global,
    mode: ReductMode,
    search: &mut Search<Store>,
    plain: &[u32],
) -> Result<bool, NoMemory>
    requires in_order { IsInOrder (state_of (λ s. s.slots) search.old) }
    requires complete { CompleteOver search.old.clauses.slots search.old.trail }
    requires decided { 0 < length search.old.trail.starts }
    requires levels { length search.old.trail.starts < search.old.variables + 1 }
    requires room { length search.old.clauses.slots < 2000000 }
    ensures in_order { IsInOrder (state_of (λ s. s.slots) search.new) }
    ensures trail { search.new.trail ≡ search.old.trail }
    ensures clauses { search.new.clauses ≡ search.old.clauses }
    ensures variables { search.new.variables ≡ search.old.variables }
{
    let _level = search.trail.level();
    if mode == ReductMode::Positive {
        let reduct = sdcl_reduct::positive(alloc, &search.clauses, &search.trail)?;
        return Ok(are_lent(&reduct, plain));
    }
    let members = members(
        alloc,
        &search.clauses,
        &mut search.engine,
        &mut search.trail,
    )?;
    let reduct = sdcl_reduct::filtered(alloc, &search.clauses, &search.trail, members)?;
    Ok(are_lent(&reduct, plain))
}

// The mode's reduct by the plain program.
fn reduct_of(
    alloc: Global,
    mode: ReductMode,
    formula: &[u32],
    decisions: u32,
) -> Result<Vec<u32>, Fail> {
    if mode == ReductMode::Positive {
        positive(alloc, formula, decisions)
    } else {
        filtered(alloc, formula, decisions)
    }
}

// A formula, decisions, a mode and an inner budget.
#[derive(Clone, Copy)]
struct Case<'a> {
    numbers: &'a [i64],
    decided: &'a [i64],
    mode: ReductMode,
    inner_budget: u64,
}

// Attempts where those of the decisions are made that have no value when their turn comes, and the reduct lends the clauses of
// the plain program. None where a clause becomes false, or nothing is decided.
fn attempted(
    rt: &impl Abort,
    alloc: Global,
    case: &Case,
    reduct: &[u32],
) -> Result<Option<Found>, Fail> {
    assert!(rt; case.numbers.len() < 100000);
    assert!(rt; case.inner_budget < 1000000);
    assert!(rt; case.mode != ReductMode::Off);
    let prefer = preferred(alloc, case.decided, VARIABLES)?;
    let mut out = Witness::new(alloc, VARIABLES)?;
    let store = store_of(alloc, case.numbers, VARIABLES)?;
    let mut search = Search::new(alloc, store, VARIABLES)?;
    let conflict = descend(&mut search, prefer.lits());
    let level = search.trail.level();
    if conflict.is_some() || level == 0 || level > VARIABLES {
        return Ok(None);
    }
    let lent = lends(alloc, case.mode, &mut search, reduct)?;
    assert!(rt; lent);
    let found = attempt_here(alloc, case.mode, &mut search, case.inner_budget, &mut out)?;
    Ok(Some(found))
}

// The decisions that the plain program makes of these literals, if there are some and no clause becomes false.
fn decided_by(formula: &[u32], decided: &[i64]) -> Option<u32> {
    let mut decisions = 0;
    for n in decided {
        if refutes(formula, decisions) {
            return None;
        }
        let l = mask_from(&[*n]);
        if over(closure(formula, decisions)) & l == 0 {
            decisions |= l;
        }
    }
    if decisions == 0 || refutes(formula, decisions) {
        None
    } else {
        Some(decisions)
    }
}

// Whether what was found is what the definitions say of the formula and the decisions, whose reduct is this.
fn is_right(found: &Found, case: &Case, formula: &[u32], decisions: u32, reduct: &[u32]) -> bool {
    let set = closure(formula, decisions);
    let same = found.set == set && found.after == set && found.decisions == decisions;
    let clause = complements(decisions);
    let right = match found.ending {
        Ending::Witnessed => {
            has_model(reduct)
                && found.clause == clause
                && found.witness & !over(set) == 0
                && is_pr(formula, clause, found.witness)
        }
        Ending::NoWitness => !has_model(reduct),
        Ending::Spent => found.kept == case.inner_budget && found.variables == set.count_ones(),
    };
    let exact = case.mode != ReductMode::Filtered
        || has_model(reduct) == has_witness(formula, over(set), clause);
    same && right && exact
}

// How often each ending came.
#[derive(Clone, Copy, Debug, PartialEq, Eq)]
struct Counts {
    witnessed: u32,
    none: u32,
    spent: u32,
}

fn count(counts: &mut Counts, ending: Ending) {
    match ending {
        Ending::Witnessed => counts.witnessed = counts.witnessed.saturating_add(1),
        Ending::NoWitness => counts.none = counts.none.saturating_add(1),
        Ending::Spent => counts.spent = counts.spent.saturating_add(1),
    }
}

// Whether the attempt, the lent reduct and the decisions are those of the plain program.
fn agrees(rt: &impl Abort, alloc: Global, case: &Case, counts: &mut Counts) -> Result<bool, Fail> {
    let formula = formula_of(alloc, case.numbers)?;
    let formula = formula.as_slice();
    let Some(decisions) = decided_by(formula, case.decided) else {
        return Ok(attempted(rt, alloc, case, &[])?.is_none());
    };
    let reduct = reduct_of(alloc, case.mode, formula, decisions)?;
    let Some(found) = attempted(rt, alloc, case, reduct.as_slice())? else {
        return Ok(false);
    };
    count(counts, found.ending);
    Ok(is_right(&found, case, formula, decisions, reduct.as_slice()))
}

fn budget_of(draw: u32) -> u64 {
    match draw {
        0 => 0,
        1 => 1,
        _ => 1000,
    }
}

// One formula with its decisions, in both modes.
fn next_agrees(
    rt: &impl Abort,
    alloc: Global,
    generator: &mut Generator,
    counts: &mut Counts,
) -> Result<bool, Fail> {
    let numbers = generator.formula(alloc, VARIABLES)?;
    let decided = [
        generator.number(VARIABLES),
        generator.number(VARIABLES),
        generator.number(VARIABLES),
    ];
    let some = 1 + generator.draw(3) as usize % 3;
    let case = Case {
        numbers: numbers.as_slice(),
        decided: &decided[..some],
        mode: ReductMode::Positive,
        inner_budget: budget_of(generator.draw(3)),
    };
    let positive = agrees(rt, alloc, &case, counts)?;
    let mode = ReductMode::Filtered;
    Ok(positive && agrees(rt, alloc, &Case { mode, ..case }, counts)?)
}

#[test]
fn reducts_and_attempts_are_those_of_the_definitions(rt: HostRuntime) -> Result<(), Fail> {
    let alloc = rt.alloc();
    let mut generator = Generator { state: 1 };
    let mut counts = Counts {
        witnessed: 0,
        none: 0,
        spent: 0,
    };
    for formula in 0..FORMULAS {
        let agrees = next_agrees(&rt, alloc, &mut generator, &mut counts)?;
        assert!(rt; agrees, "formula {formula}");
    }
    assert!(rt;
        counts.witnessed > 200 && counts.none > 100 && counts.spent > 5,
        "{counts:?}"
    );
    Ok(())
}

// The clauses (1 2 3) and (-1 2 3) at the decisions 1 and 2.
const BOTH: Case = Case {
    numbers: &EITHER,
    decided: &[1, 2],
    mode: ReductMode::Positive,
    inner_budget: 1000,
};

// The clauses (-1 2 3) and (-2 3) at the decision 1.
const IMPLIED: Case = Case {
    numbers: &[-1, 2, 3, 0, -2, 3, 0],
    decided: &[1],
    ..BOTH
};

// A case, the sets of the clauses of its reduct, how its attempt ends, and the sets of the clause and the witness, where
// there is one.
struct Row {
    case: Case<'static>,
    reduct: &'static [u32],
    ending: Ending,
    clause: u32,
    witness: u32,
}

const ROWS: [Row; 5] = [
    Row {
        case: IMPLIED,
        reduct: &[0b1000],
        ending: Ending::Witnessed,
        clause: 0b1000,
        witness: 0b1000,
    },
    Row {
        case: Case {
            decided: &[1],
            mode: ReductMode::Filtered,
            ..BOTH
        },
        reduct: &[0b1000],
        ending: Ending::Witnessed,
        clause: 0b1000,
        witness: 0b1000,
    },
    Row {
        case: Case {
            decided: &[1],
            ..BOTH
        },
        reduct: &[0b100, 0b1000],
        ending: Ending::NoWitness,
        clause: 0,
        witness: 0,
    },
    Row {
        case: BOTH,
        reduct: &[0b1_0100, 0b1_1000, 0b10_1000],
        ending: Ending::Witnessed,
        clause: 0b10_1000,
        witness: 0b1000,
    },
    Row {
        case: Case {
            inner_budget: 0,
            ..BOTH
        },
        reduct: &[0b1_0100, 0b1_1000, 0b10_1000],
        ending: Ending::Spent,
        clause: 0,
        witness: 0,
    },
];

// Whether the reduct and the attempt are those of the row.
fn is_told(rt: &impl Abort, alloc: Global, row: &Row) -> Result<bool, Fail> {
    let Some(found) = attempted(rt, alloc, &row.case, row.reduct)? else {
        return Ok(false);
    };
    let pair = found.clause == row.clause && found.witness == row.witness;
    let witnessed = row.ending == Ending::Witnessed;
    Ok(found.ending == row.ending && (pair || !witnessed))
}

#[test]
fn attempts_end_as_worked_out_by_hand(rt: HostRuntime) -> Result<(), Fail> {
    for (at, row) in ROWS.iter().enumerate() {
        let told = is_told(&rt, rt.alloc(), row)?;
        assert!(rt; told, "row {at}");
    }
    Ok(())
}
