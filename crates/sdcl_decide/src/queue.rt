//! Variables in the order of their scores.
//!
//! A binary heap (Williams, 1964) that is indexed by its elements, as solvers keep it (Een and
//! Sorensson, 2003). What the trail assigns is passed when it comes to the top, and is put back
//! when the trail gives it up. So the first open variable is at hand, and each call takes time
//! logarithmic in the number of variables; to pass is paid by what was put back.
ghost use Rattle.std.specs.Prelude.{◌≡◌, ◌+◌, ◌<◌, ◌≤◌, ℕ, length, slice_index, slice_set};
ghost use Rattle.std.specs.Prelude.{IfOk, IfNone, IfSome, false, true};
ghost use Rattle.std.specs.Option.{option_map_or};
ghost use Rattle.sdcl_base.specs.declared.lit.TheConstants.{MAX_VARIABLE};
ghost use Rattle.sdcl_decide.specs.Heap.{comes_before};
ghost use Rattle.sdcl_decide.specs.Queue.{unranked, divided, is_given, IsOpen, IsFirstOpen};
ghost use Rattle.sdcl_decide.specs.Queue.{NoneOpen, IsInStep, IsQueue, Settles, Passes};
ghost use Rattle.sdcl_decide.specs.Queue.{AreAtOwnPlaces};

use crate::heap::{admit, arrange, exchange, is_before, rise, sink};
use sdcl_base::NoMemory;
use sdcl_trail::Trail;
use std::alloc::Global;
use std::marker::Model;

/// What scores that are too great are divided by: 2 to the 40th.
pub(crate) const DIVISOR: u64 = 1_099_511_627_776;

/// The variables from 1 to a number, each with a score.
#[derive(Drop)]
pub(crate) struct Queue {
    variables: u32,
    // place 0 is of no variable, and behind the last place stand those that were passed
    vars: Vec<u32>,
    // by variable
    places: Vec<usize>,
    scores: Vec<u64>,
    // the last place of the heap
    last: usize,
}

impl Model for Queue {
    ghost use Rattle.sdcl_decide.specs.Queue.{Ranking, IsQueue, passed_of};

    ghost Value = { Ranking };

    ghost view = { λ q. record {
      variables = q.variables;
      scores = q.scores.items;
      passed = passed_of q.last q.places.items;
    } };

    ghost invariant = { λ q.
        IsQueue q.variables q.vars.items q.places.items q.scores.items q.last };
}

impl Queue {
    /// The variables from 1 to a number, with no score. All memory is taken here.
    pub(crate) fn new(alloc: Global, variables: u32) -> Result<Queue, NoMemory>
        requires { variables ≤ MAX_VARIABLE }
        ensures { IfOk result (λ q. q ≡ unranked variables) }
    {
        let width = variables as usize + 1;
        let scores = vec![in alloc; 0u64; width].map_err(|_| NoMemory)?;
        Ok(Queue {
            variables,
            vars: variables_in_order(alloc, variables)?,
            places: places_in_order(alloc, width)?,
            scores,
            last: variables as usize,
        })
    }

    /// The score of a variable.
    pub(crate) fn score(&self, var: u32) -> u64
        requires { var ≤ self.now.variables }
        ensures { result ≡ slice_index self.now.scores var }
    {
        self.scores[var as usize]
    }

    /// An open variable, and the first one where all that were passed have a value. It looks
    /// through all variables where the foremost at hand is not open.
    pub(crate) fn first_open(&self, trail: &Trail) -> Option<u32>
        requires { trail.now.variables ≡ self.now.variables }
        ensures none { IfNone result (NoneOpen self.now.variables trail.now.lits) }
        ensures found { IfSome result (IsOpen self.now.variables trail.now.lits) }
        ensures first { IsInStep self.now trail.now.lits
            → IfSome result (IsFirstOpen self.now trail.now.lits) }
    {
        if self.last > 0 {
            let top = self.vars[1];
            if !trail.is_assigned(top) {
                return Some(top);
            }
        }
        look(&self.scores, self.variables, trail)
    }

    /// Passes the variables that the trail assigns, from the foremost on, up to the first open one.
    pub(crate) fn settle(&mut self, trail: &Trail)
        requires { trail.now.variables ≡ self.old.variables }
        ensures { Settles trail.now.lits self.old self.new }
    {
        self.last = pass(
            &mut self.vars,
            &mut self.places,
            &self.scores,
            self.last,
            trail,
        );
    }

    /// Puts a variable back that was passed.
    pub(crate) fn put_back(&mut self, var: u32)
        requires { (1 ≤ var) × (var ≤ self.old.variables) }
        ensures { self.new ≡ record self.old { passed = slice_set self.old.passed var false } }
    {
        if self.places[var as usize] > self.last {
            admit(
                &mut self.vars,
                &mut self.places,
                &self.scores,
                self.last,
                var,
            );
            self.last += 1;
        }
    }

    /// Gives a variable a score that is not below the one that it has.
    pub(crate) fn raise(&mut self, var: u32, score: u64)
        requires var { (1 ≤ var) × (var ≤ self.old.variables) }
        requires score { slice_index self.old.scores var ≤ score }
        ensures { self.new ≡ record self.old { scores = slice_set self.old.scores var score } }
    {
        self.scores[var as usize] = score;
        let at = self.places[var as usize];
        if at <= self.last {
            rise(
                &mut self.vars,
                &mut self.places,
                &self.scores,
                self.last,
                at,
            );
        }
    }

    /// Divides all scores by 2 to the 40th, in time linear in the number of variables.
    pub(crate) fn divide(&mut self)
        ensures { self.new ≡ record self.old { scores = divided self.old.scores } }
    {
        divide_all(&mut self.scores);
        arrange(&mut self.vars, &mut self.places, &self.scores, self.last);
    }
}

// Divides each score.
fn divide_all(scores: &mut [u64])
    ensures { scores.new ≡ divided scores.old }
{
    for score in scores.iter_mut() {
        *score /= DIVISOR;
    }
}

// The variables from 0 to a number, each at its place.
fn variables_in_order(alloc: Global, greatest: u32) -> Result<Vec<u32>, NoMemory>
    requires { greatest ≤ MAX_VARIABLE }
    ensures { IfOk result (λ v. AreAtOwnPlaces (greatest + 1) v.items) }
{
    let mut vars = Vec::with_capacity(alloc, greatest as usize + 1).map_err(|_| NoMemory)?;
    for x in 0..greatest + 1 {
        vars.push(x).map_err(|_| NoMemory)?;
    }
    Ok(vars)
}

// The places below a number, each at its variable.
fn places_in_order(alloc: Global, width: usize) -> Result<Vec<usize>, NoMemory>
    requires { width ≤ MAX_VARIABLE + 1 }
    ensures { IfOk result (λ v. AreAtOwnPlaces width v.items) }
{
    let mut places = Vec::with_capacity(alloc, width).map_err(|_| NoMemory)?;
    for x in 0..width {
        places.push(x).map_err(|_| NoMemory)?;
    }
    Ok(places)
}

// Whether a variable is better than the best so far.
fn is_better(scores: &[u64], x: u32, best: Option<u32>) -> bool
    requires x { x < length scores.now }
    requires best { IfSome best (λ y. y < length scores.now) }
    ensures { result ≡ option_map_or (comes_before scores.now x) best true }
{
    match best {
        None => true,
        Some(y) => is_before(scores, x, y),
    }
}

// The first open variable, in time linear in the number of variables.
fn look(scores: &[u64], variables: u32, trail: &Trail) -> Option<u32>
    requires scores { length scores.now ≡ variables + 1 }
    requires trail { trail.now.variables ≡ variables }
    requires small { variables ≤ MAX_VARIABLE }
    ensures none { IfNone result (NoneOpen variables trail.now.lits) }
    ensures found { IfSome result (IsOpen variables trail.now.lits) }
    ensures first { IfSome result (λ x. (y : ℕ) → IsOpen variables trail.now.lits y
        → comes_before scores.now y x ≡ false) }
{
    let mut best = None;
    for x in 1..variables + 1 {
        if !trail.is_assigned(x) && is_better(scores, x, best) {
            best = Some(x);
        }
    }
    best
}

// Takes the top off the heap as long as the trail assigns it, and answers the last place then.
fn pass(vars: &mut [u32], places: &mut [usize], scores: &[u64], last: usize, trail: &Trail) -> usize
    requires { IsQueue trail.now.variables vars.old places.old scores.now last }
    ensures queue { IsQueue trail.now.variables vars.new places.new scores.now result }
    ensures within { result ≤ last }
    ensures passes { Passes trail.now.lits last result places.old places.new }
    ensures ready { 1 ≤ result → is_given trail.now.lits (slice_index vars.new 1) ≡ false }
{
    let mut last = last;
    while last > 0 && trail.is_assigned(vars[1]) {
        exchange(vars, places, 1, last);
        last -= 1;
        sink(vars, places, scores, last, 1);
    }
    last
}
