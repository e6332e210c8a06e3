//! The conversion of a checked proof.
ghost use Rattle.std.specs.Prelude.{◌≡◌, ◌≤◌, ◌<◌, ◌+◌, ◌++◌, ◌∷◌, [], map, length, IfOk, OnOk, OnErr, IsErrOf};
ghost use Rattle.sdcl_base.specs.declared.lit.TheConstants.{MAX_VARIABLE};
ghost use Rattle.sdcl_io.specs.World.{Rose};
ghost use Rattle.sdcl_io.specs.Step.{All};
ghost use Rattle.sdcl_proof.specs.Steps.{step_of};
ghost use Rattle.sdcl_store.specs.Slots.{slot_at, live};
ghost use Rattle.sdcl_store.specs.Stores.{clauses_in};
ghost use Rattle.sdcl_convert.specs.Conversion.{converted_apart, next_variable};
ghost use Rattle.sdcl_convert.specs.Begun.{AreFirstOf};
ghost use Rattle.sdcl_convert.specs.Converting.{Converts, WritesLines, MayBeConverted, lines_for};

use crate::checked::{Checked, has_witness};
use crate::lines::lines_of;
use crate::writing::{ConvertError, write_step};
use sdcl_base::{Clause, ClauseId, NoMemory};
use sdcl_io::ProofOut;
use sdcl_proof::Step;
use sdcl_store::{Clauses, Store};
use std::alloc::Global;

/// What was converted.
#[derive(Clone, Copy, Debug, PartialEq, Eq)]
pub struct Converted {
    /// The steps of the proof.
    pub steps: u64,
    /// The lines that were written.
    pub lines: u64,
    /// The steps with a witness, for each of which there is a new variable.
    pub new_variables: u64,
}

/// Writes a proof without witnesses that refutes the formula, line by line. The clauses of the formula and of the
/// lines are kept, and the lines of one step at a time.
pub fn convert<P: ProofOut>(
    alloc: Global,
    checked: Checked,
    out: &mut P,
) -> Result<Converted, ConvertError>
    requires ready { P.ready out.old }
    ensures follows { P.follows out.old out.new }
    ensures later { P.faults out.old ≤ P.faults out.new }
    ensures aside { P.aside out.new ≡ P.aside out.old }
    ensures ready { OnOk result (P.ready out.new) }
    ensures fault { IsErrOf result ConvertError.WriteFault
        → Rose (P.faults out.old) (P.faults out.new) }
    ensures ok { IfOk result (λ c. Converts P.tells out.old out.new checked c) }
    ensures err { OnErr result (AreFirstOf P.tells out.old out.new (lines_for checked)) }
{
    convert_steps(
        alloc,
        &checked.formula,
        checked.steps.as_slice(),
        checked.greatest,
        out,
    )
}

// Writes the lines of the steps, where `greatest` is above all variables of the formula and the steps.
fn convert_steps<P: ProofOut>(
    alloc: Global,
    formula: &Store,
    steps: &[Step],
    greatest: u32,
    out: &mut P,
) -> Result<Converted, ConvertError>
    requires ready { P.ready out.old }
    requires steps { MayBeConverted (clauses_in formula.now) (map step_of steps.now) greatest }
    ensures follows { P.follows out.old out.new }
    ensures later { P.faults out.old ≤ P.faults out.new }
    ensures aside { P.aside out.new ≡ P.aside out.old }
    ensures ready { OnOk result (P.ready out.new) }
    ensures fault { IsErrOf result ConvertError.WriteFault
        → Rose (P.faults out.old) (P.faults out.new) }
    ensures ok { IfOk result (λ c. WritesLines P.tells out.old out.new (clauses_in formula.now)
        (map step_of steps.now) (greatest + 1) c) }
    ensures err { OnErr result (AreFirstOf P.tells out.old out.new
        (converted_apart All (clauses_in formula.now) (map step_of steps.now) (greatest + 1))) }
{
    let mut clauses = clauses_of(alloc, formula)?;
    let mut last = greatest;
    let mut lines: u64 = 0;
    for step in steps {
        let more = lines_of(alloc, clauses.as_slice(), step, last + 1)?;
        write_step(alloc, step, last + 1, more.as_slice(), &mut clauses, out)?;
        lines = lines.checked_add(more.len() as u64).ok_or(NoMemory)?;
        last = next_variable(step, last);
    }
    Ok(Converted {
        steps: steps.len() as u64,
        lines,
        new_variables: (last - greatest) as u64,
    })
}

// The greatest variable after a step.
fn next_variable(step: &Step, last: u32) -> u32
    requires { last ≤ MAX_VARIABLE }
    ensures { result + 1 ≡ next_variable (step_of step.now) (last + 1) }
{
    if has_witness(step) { last + 1 } else { last }
}

// The clauses of the formula.
fn clauses_of(alloc: Global, formula: &Store) -> Result<Vec<Clause>, NoMemory>
    ensures { IfOk result (λ clauses. clauses.items ≡ clauses_in formula.now) }
{
    let mut clauses = Vec::new(alloc);
    // the clauses below `id` are copied
    for id in 0..formula.slots() {
        push_live(alloc, formula, ClauseId(id), &mut clauses)?;
    }
    Ok(clauses)
}

// Appends the id's clause, if there is one.
fn push_live(
    alloc: Global,
    formula: &Store,
    id: ClauseId,
    clauses: &mut Vec<Clause>,
) -> Result<(), NoMemory>
    requires there { id.0 < length formula.now.slots }
    ensures { OnOk result (clauses.new.items ≡ clauses.old.items ++ live
        (slot_at formula.now.slots id.0 ∷ [])) }
{
    if formula.alive(id) {
        let clause = Clause::collect(alloc, formula.literals(id))?;
        clauses.push(clause).map_err(|_| NoMemory)?;
    }
    Ok(())
}
