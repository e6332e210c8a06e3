//! A clause with its witness.
ghost use Rattle.std.specs.Prelude.{◌≡◌, ◌≤◌, true, IfOk};
ghost use Rattle.sdcl_base.specs.Marks.{no_repeats};
ghost use Rattle.sdcl_base.specs.declared.lit.TheConstants.{MAX_VARIABLE};
ghost use Rattle.sdcl_witness.specs.Witnesses.{bare_pair};

use sdcl_base::{Lit, NoMemory};
use std::alloc::Global;
use std::marker::Model;

/// The clause of the complements of some decisions, and a witness for it.
#[derive(Drop)]
pub struct Witness {
    pub(crate) room: u32,
    pub(crate) clause: Vec<Lit>,
    pub(crate) lits: Vec<Lit>,
}

impl Model for Witness {
    ghost use Rattle.std.specs.Prelude.{◌≡◌, ◌≤◌, true, vec_capacity};
    ghost use Rattle.sdcl_base.specs.Marks.{no_repeats};
    ghost use Rattle.sdcl_witness.specs.Witnesses.{Pair, pair_code};

    ghost Value = { Pair };

    ghost coded = { pair_code };

    ghost view = { λ w.
        record { room = w.room; clause = w.clause.items; lits = w.lits.items } };

    ghost invariant = { λ w. (w.room ≤ vec_capacity w.clause) × (w.room ≤ vec_capacity w.lits)
        × (no_repeats w.clause.items ≡ true) × (no_repeats w.lits.items ≡ true) };
}

impl Witness {
    /// Two empty lists, for trails over the variables from 1 to a number. All memory is taken here.
    pub fn new(alloc: Global, variables: u32) -> Result<Witness, NoMemory>
        requires { variables ≤ MAX_VARIABLE }
        ensures { IfOk result (λ w. w ≡ bare_pair variables) }
    {
        Ok(Witness {
            room: variables,
            clause: Vec::with_capacity(alloc, variables as usize).map_err(|_| NoMemory)?,
            lits: Vec::with_capacity(alloc, variables as usize).map_err(|_| NoMemory)?,
        })
    }

    /// The complements of the decisions.
    pub fn clause_of_decisions(&self) -> &[Lit]
        ensures value { result.now ≡ self.now.clause }
        ensures distinct { no_repeats result.now ≡ true }
    {
        self.clause.as_slice()
    }

    /// The witness.
    pub fn lits(&self) -> &[Lit]
        ensures value { result.now ≡ self.now.lits }
        ensures distinct { no_repeats result.now ≡ true }
    {
        self.lits.as_slice()
    }
}
