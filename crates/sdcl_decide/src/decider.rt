//! Decisions. Static takes the lowest variable, MoveToFront the one that was bumped last (Ryan,
//! 2004, as Biere and Froehlich tell it, 2015), and Scored the one with the greatest score, where
//! what was bumped of late counts most (Een and Sorensson, 2003, after Moskewicz and others, 2001).
//! All three are one rule: the open variable with the greatest score, the lowest of equal ones.
//! Static gives no scores; MoveToFront gives each bumped variable a score above all others.
ghost use Rattle.std.specs.Prelude.{◌≡◌, ◌+◌, ◌<◌, ◌≤◌, ◌==◌, IfOk, IfNone, IfSome, All};
ghost use Rattle.std.specs.List.{IsDistinct};
ghost use Rattle.sdcl_base.specs.declared.lit.TheConstants.{MAX_VARIABLE};
ghost use Rattle.sdcl_decide.specs.Queue.{IsOpen, NoneOpen, IsInStep, Settles};
ghost use Rattle.sdcl_decide.specs.Deciding.{unbumped, first_step, sign_of, saved, with_saved};
ghost use Rattle.sdcl_decide.specs.Deciding.{bumped, IsDecision};

use crate::bumping::{add_to_scores, bring_to_front};
use crate::queue::Queue;
use sdcl_base::{Lit, NoMemory};
use sdcl_trail::Trail;
use std::alloc::Global;
use std::marker::Model;

/// The rule by which a variable is decided.
#[derive(Clone, Copy, Debug, PartialEq, Eq)]
pub enum DecideKind {
    Static,
    MoveToFront,
    Scored,
}

/// What is remembered between decisions: the saved signs, and the variables in the order of their
/// scores.
///
/// With `settle` before each `next`, and `save` for each literal that leaves the trail, every call
/// takes time logarithmic in the number of variables for each variable that it is about. A bump
/// that divides the scores takes time linear in it.
#[derive(Drop)]
pub struct Decider {
    kind: DecideKind,
    signs: Vec<bool>,
    queue: Queue,
    step: u64,
}

impl Model for Decider {
    ghost use Rattle.sdcl_decide.specs.Deciding.{Preferences, IsDecider};

    ghost Value = { Preferences };

    ghost view = { λ d. record {
      kind = d.kind;
      signs = d.signs.items;
      ranking = d.queue;
      step = d.step;
    } };

    ghost invariant = { λ d. IsDecider d.kind d.signs.items d.queue d.step };
}

impl Decider {
    /// A decider over the variables from 1 to a number. All memory is taken here.
    pub fn new(alloc: Global, kind: DecideKind, variables: u32) -> Result<Decider, NoMemory>
        requires { variables ≤ MAX_VARIABLE }
        ensures { IfOk result (λ d. d ≡ unbumped kind variables) }
    {
        let width = variables as usize + 1;
        let signs = vec![in alloc; true; width].map_err(|_| NoMemory)?;
        let queue = Queue::new(alloc, variables)?;
        Ok(Decider {
            kind,
            signs,
            queue,
            step: step_at_start(kind),
        })
    }

    /// The literal to decide, or none where the trail assigns every variable.
    ///
    /// It is that of the rule where the trail assigns every variable that was passed. Where the
    /// foremost variable at hand is assigned, it looks through all variables.
    pub fn next(&self, trail: &Trail) -> Option<Lit>
        requires { trail.now.variables ≡ self.now.ranking.variables }
        ensures none { IfNone result (NoneOpen self.now.ranking.variables trail.now.lits) }
        ensures found { IfSome result
            (λ l. IsOpen self.now.ranking.variables trail.now.lits l.var) }
        ensures sign { IfSome result (λ l. l.positive ≡ sign_of self.now l.var) }
        ensures rule { IsInStep self.now.ranking trail.now.lits
            → IfSome result (IsDecision self.now trail.now.lits) }
    {
        match self.queue.first_open(trail) {
            None => None,
            Some(var) => Some(literal(var, self.sign(var))),
        }
    }

    // The sign with which a variable is decided.
    fn sign(&self, var: u32) -> bool
        requires { var ≤ self.now.ranking.variables }
        ensures value { result ≡ sign_of self.now var }
        ensures small { self.now.ranking.variables ≤ MAX_VARIABLE }
    {
        match self.kind {
            DecideKind::Static => true,
            _ => self.signs[var as usize],
        }
    }

    /// Passes the foremost variables that the trail assigns, so that `next` finds an open one at
    /// once. `save` puts a variable back.
    pub fn settle(&mut self, trail: &Trail)
        requires { trail.now.variables ≡ self.old.ranking.variables }
        ensures same { self.new ≡ record self.old { ranking = self.new.ranking } }
        ensures settles { Settles trail.now.lits self.old.ranking self.new.ranking }
    {
        self.queue.settle(trail);
    }

    /// Distinct variables played a part in what was learned.
    pub fn bump(&mut self, vars: &[u32])
        requires range { All (λ x. (1 ≤ x) × (x ≤ self.old.ranking.variables)) vars.now }
        requires distinct { IsDistinct (λ x y. x == y) vars.now }
        ensures { self.new ≡ bumped self.old vars.now }
    {
        match self.kind {
            DecideKind::Static => {}
            DecideKind::MoveToFront => {
                self.step = bring_to_front(&mut self.queue, self.step, vars);
            }
            DecideKind::Scored => {
                self.step = add_to_scores(&mut self.queue, self.step, vars);
            }
        }
    }

    /// A literal leaves the trail.
    pub fn save(&mut self, l: Lit)
        requires { l.var ≤ self.old.ranking.variables }
        ensures { self.new ≡ with_saved self.old l }
    {
        let var = l.var();
        self.signs[var as usize] = l.positive();
        self.queue.put_back(var);
    }

    /// The sign that was saved last of a variable, and true where none was.
    pub fn saved_sign(&self, var: u32) -> bool
        requires { (1 ≤ var) × (var ≤ self.now.ranking.variables) }
        ensures { result ≡ saved self.now var }
    {
        self.signs[var as usize]
    }
}

fn step_at_start(kind: DecideKind) -> u64
    ensures { result ≡ first_step kind }
{
    match kind {
        DecideKind::Scored => 1_048_576,
        _ => 0,
    }
}

// The literal of a variable and a sign.
fn literal(var: u32, positive: bool) -> Lit
    requires { (1 ≤ var) × (var ≤ MAX_VARIABLE) }
    ensures { result ≡ record { var = var; positive = positive } }
{
    let code = 2 * var as usize + if positive { 0 } else { 1 };
    match Lit::from_code(code) {
        Some(l) => l,
        None => unreachable!(),
    }
}
