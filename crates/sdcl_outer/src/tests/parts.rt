//! The parts below the loop, on formulas whose answers were worked out by hand: propagation, what a conflict teaches, and
//! the inner solver. A set of literals is compared as its mask.
ghost use Rattle.std.specs.Prelude.{◌≡◌, ◌≤◌, ◌<◌, true, IfOk, IfSome, length};
ghost use Rattle.sdcl_base.specs.Literal.{Literal};
ghost use Rattle.sdcl_base.specs.Sets.{In};
ghost use Rattle.sdcl_inner.specs.Covering.{CoversAll};
ghost use Rattle.sdcl_inner.specs.Searching.{state_of, IsInOrder};

use super::sets::bit;
use super::{TWO_HOLES, literal_of, store_of};
use sdcl_analyze::Analyzer;
use sdcl_base::{Assignment, Lit, NoMemory};
use sdcl_inner::attaching::engine_over;
use sdcl_inner::preferring::descend;
use sdcl_inner::search::Search;
use sdcl_inner::{InnerAnswer, solve_view};
use sdcl_store::Store;
use sdcl_trail::Trail;
use std::alloc::Global;
use std::process::Abort;
use std::test::Fail;

pub fn mask_of(lits: &[Lit]) -> u32 {
    let mut mask = 0;
    for l in lits {
        mask |= bit(l.code());
    }
    mask
}

// The set of the literals of these numbers.
pub fn mask_from(numbers: &[i64]) -> u32 {
    let mut mask = 0;
    for n in numbers {
        if let Some(l) = Lit::from_number(*n) {
            mask |= bit(l.code());
        }
    }
    mask
}

// The literals of the numbers in order, on a trail, so that no variable stands twice.
pub fn preferred(alloc: Global, numbers: &[i64], variables: u32) -> Result<Trail, NoMemory>
    requires { variables < 1000 }
    ensures { IfOk result (λ t. t.variables ≡ variables) }
{
    let mut trail = Trail::new(alloc, variables)?;
    for n in numbers {
        if let Some(l) = literal_of(*n, variables) {
            put(&mut trail, l);
        }
    }
    Ok(trail)
}

// Puts the literal on the trail, if its variable is not there.
fn put(trail: &mut Trail, l: Lit)
    requires { l.var ≤ trail.old.variables }
    ensures { trail.new.variables ≡ trail.old.variables }
{
    if !trail.is_true(l) && !trail.is_true(l.negated()) {
        trail.push(l, None);
    }
}

// The clauses (-1 2) and (-2 3) refute 1 with -3, and not 1 alone, from which they propagate 2 and 3.
fn propagates(alloc: Global) -> Result<bool, Fail> {
    let store = store_of(alloc, &[-1, 2, 0, -2, 3, 0], 3)?;
    let mut engine = engine_over(alloc, &store, 3)?;
    let mut trail = Trail::new(alloc, 3)?;
    let both = preferred(alloc, &[1, -3], 3)?;
    let one = preferred(alloc, &[1], 3)?;
    let refuted = engine.refutes(&mut trail, &store, both.lits());
    let alone = engine.refutes(&mut trail, &store, one.lits());
    if let Some(l) = literal_of(1, 3) {
        put(&mut trail, l);
    }
    let conflict = engine.propagate(&mut trail, &store);
    let closed = mask_of(trail.lits()) == mask_from(&[1, 2, 3]);
    Ok(refuted && !alone && conflict.is_none() && closed)
}

#[test]
fn literals_are_refuted_or_closed_by_clauses(rt: HostRuntime) -> Result<(), Fail> {
    let holds = propagates(rt.alloc())?;
    assert!(rt; holds);
    Ok(())
}

// A formula, decisions of which the last is that of a conflict, and what it teaches.
struct Lesson {
    numbers: &'static [i64],
    decisions: &'static [i64],
    first: i64,
    clause: &'static [i64],
    back_level: u32,
    glue: u32,
    // as positive literals
    seen: &'static [i64],
}

const LESSONS: [Lesson; 5] = [
    Lesson {
        numbers: &TWO_HOLES,
        decisions: &[1],
        first: -1,
        clause: &[-1],
        back_level: 0,
        glue: 1,
        seen: &[1, 3, 4, 5, 6],
    },
    // 2 forces 6 by way of 3, which the clause does not name
    Lesson {
        numbers: &[
            -1, 2, 0, -2, 3, 0, -3, 6, 0, -4, -2, -6, 5, 0, -4, -2, -6, -5, 0,
        ],
        decisions: &[1, 4],
        first: -4,
        clause: &[-4, -2],
        back_level: 1,
        glue: 2,
        seen: &[2, 4, 5],
    },
    // 1 forces 2, but 1 is a decision that the clause does not name
    Lesson {
        numbers: &[-1, 2, 0, -3, 4, 0, -5, -2, -4, 6, 0, -5, -2, -4, -6, 0],
        decisions: &[1, 3, 5],
        first: -5,
        clause: &[-5, -2, -4],
        back_level: 2,
        glue: 3,
        seen: &[2, 4, 5, 6],
    },
    // 7 stands on level 0
    Lesson {
        numbers: &[7, 0, -1, -7, 2, 0, -1, -7, -2, 0],
        decisions: &[1],
        first: -1,
        clause: &[-1],
        back_level: 0,
        glue: 1,
        seen: &[1, 2],
    },
    // the level of 3 has nothing to do with the conflict, and two literals stand on that of 1
    Lesson {
        numbers: &[-1, -8, 2, 0, -5, -1, -2, 6, 0, -5, -1, -2, -6, 0],
        decisions: &[8, 1, 3, 5],
        first: -5,
        clause: &[-5, -1, -2],
        back_level: 2,
        glue: 2,
        seen: &[1, 2, 5, 6],
    },
];

fn mask_of_variables(variables: &[u32]) -> u32 {
    let mut mask = 0;
    for x in variables {
        mask |= bit((*x as usize).saturating_mul(2));
    }
    mask
}

// Whether the conflict of the decisions teaches what is told.
fn is_taught(
    search: &mut Search<Store>,
    analyzer: &mut Analyzer,
    prefer: &[Lit],
    told: &Lesson,
) -> bool
    requires in_order { IsInOrder (state_of (λ s. s.slots) search.old) }
    requires within { (l : Literal) → In prefer.now l → l.var ≤ search.old.variables }
    requires marks { search.old.variables ≤ analyzer.old.variables }
{
    let Some(conflict) = descend(search, prefer) else {
        return false;
    };
    if search.trail.level() == 0 {
        return false;
    }
    let learned = analyzer.learn(&search.trail, &search.clauses, conflict);
    let first = i64::from(learned.clause[0].number()) == told.first;
    let clause = mask_of(learned.clause) == mask_from(told.clause);
    let seen = mask_of_variables(learned.seen) == mask_from(told.seen);
    first && clause && seen && learned.back_level == told.back_level && learned.glue == told.glue
}

fn teaches(rt: &impl Abort, alloc: Global, lesson: &Lesson) -> Result<bool, Fail> {
    assert!(rt; lesson.numbers.len() < 100000);
    let prefer = preferred(alloc, lesson.decisions, 12)?;
    let mut analyzer = Analyzer::new(alloc, 12)?;
    let store = store_of(alloc, lesson.numbers, 12)?;
    let mut search = Search::new(alloc, store, 12)?;
    Ok(is_taught(&mut search, &mut analyzer, prefer.lits(), lesson))
}

#[test]
fn a_conflict_teaches_the_minimised_clause_of_its_first_point(rt: HostRuntime) -> Result<(), Fail> {
    let alloc = rt.alloc();
    for (at, lesson) in LESSONS.iter().enumerate() {
        let taught = teaches(&rt, alloc, lesson)?;
        assert!(rt; taught, "lesson {at}");
    }
    Ok(())
}

// A view, what is preferred, and how its solver ends: 10 with the set of the model's literals, 20 where there is none, 0
// with the number of kept clauses.
struct View {
    numbers: &'static [i64],
    prefer: &'static [i64],
    variables: u32,
    budget: u64,
    ends: u32,
    told: u64,
}

const VIEWS: [View; 11] = [
    View {
        numbers: &[-1, 0],
        prefer: &[1],
        variables: 1,
        budget: 1000,
        ends: 10,
        told: 0b1000,
    },
    View {
        numbers: &[1, 0, -1, 0],
        prefer: &[1],
        variables: 1,
        budget: 1000,
        ends: 20,
        told: 0,
    },
    View {
        numbers: &[0],
        prefer: &[1],
        variables: 1,
        budget: 0,
        ends: 20,
        told: 0,
    },
    View {
        numbers: &[],
        prefer: &[-2, 1],
        variables: 2,
        budget: 0,
        ends: 10,
        told: 0b10_0100,
    },
    View {
        numbers: &[1, 2, 0],
        prefer: &[-1, -2],
        variables: 2,
        budget: 0,
        ends: 10,
        told: 0b1_1000,
    },
    View {
        numbers: &[-1, 2, 0, -1, -2, 0],
        prefer: &[1, 2],
        variables: 2,
        budget: 1,
        ends: 10,
        told: 0b1_1000,
    },
    View {
        numbers: &[-1, 2, 0, -1, -2, 0],
        prefer: &[1, 2],
        variables: 2,
        budget: 0,
        ends: 0,
        told: 0,
    },
    View {
        numbers: &[-1, 2, 0, -2, 3, 0, -2, -3, 0],
        prefer: &[1, 2, 3],
        variables: 3,
        budget: 1,
        ends: 10,
        told: 0b110_1000,
    },
    View {
        numbers: &TWO_HOLES,
        prefer: &[1, 2, 3, 4, 5, 6],
        variables: 6,
        budget: 1000,
        ends: 20,
        told: 0,
    },
    View {
        numbers: &TWO_HOLES,
        prefer: &[1, 2, 3, 4, 5, 6],
        variables: 6,
        budget: 1,
        ends: 20,
        told: 0,
    },
    View {
        numbers: &TWO_HOLES,
        prefer: &[1, 2, 3, 4, 5, 6],
        variables: 6,
        budget: 0,
        ends: 0,
        told: 0,
    },
];

// Whether each variable stands on the trail.
fn covers_all(trail: &Trail, variables: u32) -> bool
    requires same { trail.now.variables ≡ variables }
    requires small { variables < 1000 }
    ensures { result ≡ true → CoversAll variables trail.now.lits }
{
    for x in 1..variables + 1 {
        if !trail.is_assigned(x) {
            return false;
        }
    }
    true
}

// The set of the literals of a model.
pub fn mask_of_model(values: &Assignment, variables: u32) -> u32
    requires small { variables < 1000 }
    requires wide { variables < length values.now }
{
    let mut mask = 0;
    for x in 1..variables + 1 {
        match values.get(x) {
            Some(true) => mask |= bit(2 * x as usize),
            Some(false) => mask |= bit(2 * x as usize + 1),
            None => {}
        }
    }
    mask
}

fn answers(rt: &impl Abort, alloc: Global, view: &View) -> Result<bool, Fail> {
    assert!(rt; view.numbers.len() < 100000);
    assert!(rt; view.variables < 1000);
    assert!(rt; view.budget < 1000000);
    let store = store_of(alloc, view.numbers, view.variables)?;
    let trail = preferred(alloc, view.prefer, view.variables)?;
    assert!(rt; covers_all(&trail, view.variables));
    let answer = solve_view(alloc, &store, view.variables, trail.lits(), view.budget)?;
    let (ends, told) = match &answer {
        InnerAnswer::Model(values) => (10, u64::from(mask_of_model(values, view.variables))),
        InnerAnswer::NoModel => (20, 0),
        InnerAnswer::Spent(kept) => (0, kept.count()),
    };
    Ok(ends == view.ends && told == view.told)
}

#[test]
fn a_view_has_a_model_as_it_is_preferred_or_none(rt: HostRuntime) -> Result<(), Fail> {
    let alloc = rt.alloc();
    for (at, view) in VIEWS.iter().enumerate() {
        let answered = answers(&rt, alloc, view)?;
        assert!(rt; answered, "view {at}");
    }
    Ok(())
}
