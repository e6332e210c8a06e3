//! A formula with a proof that refutes it.
ghost use Rattle.std.specs.Prelude.{◌≡◌, ◌≤◌, ◌<◌, ◌+◌, ℕ, map, length};
ghost use Rattle.sdcl_base.specs.Sets.{WithinVariables};
ghost use Rattle.sdcl_base.specs.declared.lit.TheConstants.{MAX_VARIABLE};
ghost use Rattle.sdcl_proof.specs.Steps.{step_of};
ghost use Rattle.sdcl_convert.specs.Checked.{greatest_from, greatest_with, greatest_over, witnesses};
ghost use Rattle.sdcl_convert.specs.Conversion.{has_witness};

use sdcl_base::Lit;
use sdcl_proof::Step;
use sdcl_store::Store;
use std::marker::Model;

/// A formula and the steps of a proof of it, which were checked, up to the first added empty clause.
#[derive(Drop)]
pub struct Checked {
    pub(crate) variables: u32,
    pub(crate) formula: Store,
    pub(crate) steps: Vec<Step>,
    // the greatest variable of the three
    pub(crate) greatest: u32,
}

impl Model for Checked {
    ghost use Rattle.sdcl_convert.specs.Checked.{Proven, proven_code, proven_of, IsProvenUpTo};

    ghost Value = { Proven };

    ghost coded = { proven_code };

    ghost view = { λ c. proven_of c.variables c.formula c.steps.items };

    ghost invariant = { λ c. IsProvenUpTo c.greatest
        (proven_of c.variables c.formula c.steps.items) };
}

// The greatest of `least` and all variables of the steps.
pub(crate) fn greatest_of(least: u32, steps: &[Step]) -> u32
    requires { least ≤ MAX_VARIABLE }
    ensures value { result ≡ greatest_over least (map step_of steps.now) }
    ensures small { result ≤ MAX_VARIABLE }
{
    let mut greatest = least;
    for step in steps {
        greatest = greatest_with(greatest, step);
    }
    greatest
}

fn greatest_with(least: u32, step: &Step) -> u32
    requires { least ≤ MAX_VARIABLE }
    ensures value { result ≡ greatest_with least (step_of step.now) }
    ensures small { result ≤ MAX_VARIABLE }
{
    match step {
        Step::Remove { clause } => greatest_from(least, clause.lits()),
        Step::Add { clause, witness } => {
            let greatest = greatest_from(least, clause.lits());
            match witness {
                Some(chosen) => greatest_from(greatest, chosen.lits()),
                None => greatest,
            }
        }
    }
}

fn greatest_from(least: u32, lits: &[Lit]) -> u32
    requires { least ≤ MAX_VARIABLE }
    ensures value { result ≡ greatest_from least lits.now }
    ensures small { result ≤ MAX_VARIABLE }
{
    let mut greatest = least;
    for l in lits {
        greatest = greatest.max(l.var());
    }
    greatest
}

// The number of additions with a witness.
pub(crate) fn witnesses_of(steps: &[Step]) -> usize
    ensures value { result ≡ witnesses (map step_of steps.now) }
    ensures few { result ≤ length steps.now }
{
    let mut count = 0;
    for step in steps {
        if has_witness(step) {
            count += 1;
        }
    }
    count
}

// Whether the step is an addition with a witness.
pub(crate) fn has_witness(step: &Step) -> bool
    ensures { result ≡ has_witness (step_of step.now) }
{
    match step {
        Step::Add { witness, .. } => witness.is_some(),
        Step::Remove { .. } => false,
    }
}
