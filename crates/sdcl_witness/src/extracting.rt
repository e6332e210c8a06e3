//! The witness that a model of a reduct gives.
ghost use Rattle.std.specs.Prelude.{◌≡◌, ◌≢◌, ◌≤◌, ◌+◌, true, not, [], ◌∷◌, ◌++◌, Some};
ghost use Rattle.std.specs.Prelude.{is_some, length, slice_get, vec_capacity};
ghost use Rattle.sdcl_base.specs.Literal.{negated, complements, without};
ghost use Rattle.sdcl_base.specs.Sets.{In};
ghost use Rattle.sdcl_base.specs.Truth.{makes_true};
ghost use Rattle.sdcl_base.specs.Values.{value_of, truth_of};
ghost use Rattle.sdcl_base.specs.Marks.{no_repeats};
ghost use Rattle.sdcl_trail.specs.Levels.{decisions};
ghost use Rattle.sdcl_witness.specs.Witnesses.{IsTotalOn, turned_by};
ghost use Rattle.sdcl_witness.specs.Witnesses.{complements_after, extracted_for};

use crate::witness::Witness;
use sdcl_base::{Assignment, Lit};
use sdcl_trail::Trail;

/// Puts the clause of the complements of the trail's decisions into `out`, with the literals that
/// the model makes true and the trail false as its witness. The complement of the lowest decision
/// on which they differ is the first literal of both; the others keep their order.
pub fn extract(model: &Assignment, trail: &Trail, out: &mut Witness)
    requires total { IsTotalOn model.now trail.now.lits }
    requires differs { turned_by model.now (decisions trail.now) ≢ [] }
    requires room { trail.now.variables ≤ out.old.room }
    ensures { out.new ≡ extracted_for out.old model.now trail.now }
{
    let first = lowest_turned(model, trail);
    put_decisions(trail, first, &mut out.clause);
    put_turned(model, trail, first, &mut out.lits);
}

// The lowest decision that the model makes false.
fn lowest_turned(model: &Assignment, trail: &Trail) -> Lit
    requires total { IsTotalOn model.now trail.now.lits }
    requires differs { turned_by model.now (decisions trail.now) ≢ [] }
    ensures { slice_get (turned_by model.now (decisions trail.now)) 0 ≡ Some result }
{
    // the model makes the decisions below `level` true
    for level in 1..trail.level() + 1 {
        if let Some(decision) = trail.decision(level) {
            if is_false(model, decision) {
                return decision;
            }
        }
    }
    unreachable!()
}

// The complement of one decision, and behind it those of the others.
fn put_decisions(trail: &Trail, first: Lit, out: &mut Vec<Lit>)
    requires first { In (decisions trail.now) first }
    requires room { trail.now.variables ≤ vec_capacity out.old }
    ensures lits { out.new.items ≡ complements_after first (decisions trail.now) }
    ensures distinct { no_repeats out.new.items ≡ true }
    ensures room { vec_capacity out.old ≤ vec_capacity out.new }
{
    let end = trail.level() + 1;
    begin(first, out);
    // the decisions below `level` are dealt with
    for level in 1..end {
        if let Some(decision) = trail.decision(level) {
            put_other(decision, first, out);
        }
    }
}

// The complement of one literal that the model makes false, and behind it those of the others.
fn put_turned(model: &Assignment, trail: &Trail, first: Lit, out: &mut Vec<Lit>)
    requires total { IsTotalOn model.now trail.now.lits }
    requires first { In (turned_by model.now trail.now.lits) first }
    requires room { trail.now.variables ≤ vec_capacity out.old }
    ensures lits { out.new.items ≡ complements_after first (turned_by model.now trail.now.lits) }
    ensures distinct { no_repeats out.new.items ≡ true }
    ensures room { vec_capacity out.old ≤ vec_capacity out.new }
{
    let lits = trail.lits();
    begin(first, out);
    // the literals before `l` are dealt with
    for l in lits {
        if is_false(model, *l) {
            put_other(*l, first, out);
        }
    }
}

// The complement of one literal alone.
fn begin(first: Lit, out: &mut Vec<Lit>)
    requires { 1 ≤ vec_capacity out.old }
    ensures lits { out.new.items ≡ negated first ∷ [] }
    ensures room { vec_capacity out.old ≤ vec_capacity out.new }
{
    out.clear();
    if out.push(first.negated()).is_err() {
        unreachable!()
    }
}

// Appends the literal's complement, unless it is the first one.
fn put_other(l: Lit, first: Lit, out: &mut Vec<Lit>)
    requires { length out.old.items + length (without (l ∷ []) first) ≤ vec_capacity out.old }
    ensures lits { out.new.items ≡ out.old.items ++ complements (without (l ∷ []) first) }
    ensures room { vec_capacity out.old ≤ vec_capacity out.new }
{
    if l != first {
        if out.push(l.negated()).is_err() {
            unreachable!()
        }
    }
}

// Whether the model makes the literal false.
fn is_false(model: &Assignment, l: Lit) -> bool
    requires { is_some (value_of model.now l.var) ≡ true }
    ensures { result ≡ not (makes_true (truth_of model.now) l) }
{
    match model.get(l.var()) {
        Some(value) => value != l.positive(),
        None => unreachable!(),
    }
}
