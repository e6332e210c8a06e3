//! Lines written to a sink, and their effect on the clauses.
ghost use Rattle.std.specs.Prelude.{◌≡◌, ◌≤◌, ◌<◌, true, false, [], ◌∷◌, ◌++◌, None, OnOk, OnErr, IsErrOf, length, take};
ghost use Rattle.std.specs.List.{list_any, filter};
ghost use Rattle.sdcl_base.specs.Literal.{same_set};
ghost use Rattle.sdcl_base.specs.Marks.{no_repeats};
ghost use Rattle.sdcl_base.specs.Sets.{clause_at};
ghost use Rattle.sdcl_io.specs.World.{Rose};
ghost use Rattle.sdcl_io.specs.Step.{All, apply_all, remove_clause};
ghost use Rattle.sdcl_proof.specs.Steps.{step_of};
ghost use Rattle.sdcl_convert.specs.Errors.{convert_error};
ghost use Rattle.sdcl_convert.specs.Conversion.{shaken, unshaken, lines_of, left_by};
ghost use Rattle.sdcl_convert.specs.Laws.{AllBelow};
ghost use Rattle.sdcl_convert.specs.Lines.{lines_in, line_step};
ghost use Rattle.sdcl_io.specs.Telling.{IsTold, MayBeTold};
ghost use Rattle.sdcl_convert.specs.Begun.{AreFirstOf};

use crate::lines::Line;
use crate::sets::{is_same_set, is_shaken};
use sdcl_base::{Clause, Lit, NoMemory};
use sdcl_io::{Failed, ProofOut};
use sdcl_proof::Step;
use std::alloc::Global;
use std::mem;
use thiserror::Error;

/// Why a conversion stopped before its end.
#[derive(Clone, Copy, Debug, Drop, PartialEq, Eq, Error)]
pub enum ConvertError {
    /// The sink could not write a step.
    #[error("write fault")]
    WriteFault,
    /// Memory was not found.
    #[error("no memory")]
    NoMemory,
}

impl From<Failed> for ConvertError {
    ghost from_gives = { λ f e. e ≡ convert_error f };

    fn from(failed: Failed) -> Self {
        match failed {
            Failed::Fault => ConvertError::WriteFault,
            Failed::NoMemory => ConvertError::NoMemory,
        }
    }
}

impl From<NoMemory> for ConvertError {
    ghost use Rattle.sdcl_convert.specs.declared.writing.ConvertError.TheVariants as error;

    ghost from_gives = { λ f e. e ≡ error.NoMemory };

    fn from(_none: NoMemory) -> Self {
        ConvertError::NoMemory
    }
}

// Writes the lines of the step, and changes the clauses as they do.
pub(crate) fn write_step<P: ProofOut>(
    alloc: Global,
    step: &Step,
    x: u32,
    lines: &[Line],
    clauses: &mut Vec<Clause>,
    out: &mut P,
) -> Result<(), ConvertError>
    requires ready { P.ready out.old }
    requires lines { lines_in lines.now ≡ lines_of All clauses.old.items x (step_of step.now) }
    requires below { AllBelow x clauses.old.items }
    ensures follows { P.follows out.old out.new }
    ensures later { P.faults out.old ≤ P.faults out.new }
    ensures aside { P.aside out.new ≡ P.aside out.old }
    ensures ready { OnOk result (P.ready out.new) }
    ensures fault { IsErrOf result ConvertError.WriteFault
        → Rose (P.faults out.old) (P.faults out.new) }
    ensures applied { OnOk result (clauses.new.items ≡ apply_all All clauses.old.items
        (lines_in lines.now)) }
    ensures told { OnOk result (IsTold P.tells out.old out.new (lines_in lines.now) None) }
    ensures torn { OnErr result (AreFirstOf P.tells out.old out.new (lines_in lines.now)) }
{
    write_lines(lines, out)?;
    change(alloc, step, clauses)?;
    Ok(())
}

// Writes the lines one by one.
fn write_lines<P: ProofOut>(lines: &[Line], out: &mut P) -> Result<(), ConvertError>
    requires ready { P.ready out.old }
    ensures follows { P.follows out.old out.new }
    ensures later { P.faults out.old ≤ P.faults out.new }
    ensures aside { P.aside out.new ≡ P.aside out.old }
    ensures ready { OnOk result (P.ready out.new) }
    ensures fault { IsErrOf result ConvertError.WriteFault
        → Rose (P.faults out.old) (P.faults out.new) }
    ensures told { OnOk result (IsTold P.tells out.old out.new (lines_in lines.now) None) }
    ensures torn { OnErr result (AreFirstOf P.tells out.old out.new (lines_in lines.now)) }
{
    for line in lines {
        write_line(line, out)?;
    }
    Ok(())
}

fn write_line<P: ProofOut>(line: &Line, out: &mut P) -> Result<(), ConvertError>
    requires ready { P.ready out.old }
    ensures follows { P.follows out.old out.new }
    ensures later { P.faults out.old ≤ P.faults out.new }
    ensures aside { P.aside out.new ≡ P.aside out.old }
    ensures ready { OnOk result (P.ready out.new) }
    ensures fault { IsErrOf result ConvertError.WriteFault
        → Rose (P.faults out.old) (P.faults out.new) }
    ensures told { OnOk result (IsTold P.tells out.old out.new (line_step line.now ∷ []) None) }
    ensures torn { OnErr result (MayBeTold P.tells out.old out.new (line_step line.now)) }
{
    match line {
        Line::Add(clause) => out.add(clause.lits(), &[])?,
        Line::Remove(clause) => out.remove(clause.lits())?,
    }
    Ok(())
}

// Changes the clauses as the lines of the step do: a block costs one look at each clause, and not a search for each of
// its deletions.
fn change(alloc: Global, step: &Step, clauses: &mut Vec<Clause>) -> Result<(), NoMemory>
    ensures { OnOk result (clauses.new.items ≡ left_by clauses.old.items (step_of step.now)) }
{
    match step {
        Step::Remove { clause } => {
            remove(clause.lits(), clauses);
            Ok(())
        }
        Step::Add { clause, witness } => match witness {
            None => join(alloc, clause.lits(), clauses),
            Some(chosen) => {
                put_shaken_last(alloc, chosen.lits(), clauses)?;
                join(alloc, clause.lits(), clauses)
            }
        },
    }
}

// Puts the clauses that the witness shakes behind the others.
fn put_shaken_last(
    alloc: Global,
    witness: &[Lit],
    clauses: &mut Vec<Clause>,
) -> Result<(), NoMemory>
    ensures { OnOk result (clauses.new.items
        ≡ unshaken clauses.old.items witness.now ++ filter (shaken witness.now) clauses.old.items) }
{
    let all = mem::replace(clauses, Vec::new(alloc));
    let mut last = Vec::new(alloc);
    for clause in all {
        put(witness, clause, clauses, &mut last)?;
    }
    clauses.append(&mut last).map_err(|_| NoMemory)?;
    Ok(())
}

// Appends the clause to the last ones if the witness shakes it, and to the first ones otherwise.
fn put(
    witness: &[Lit],
    clause: Clause,
    first: &mut Vec<Clause>,
    last: &mut Vec<Clause>,
) -> Result<(), NoMemory>
    ensures first { OnOk result (first.new.items ≡ first.old.items ++ unshaken
        (clause ∷ []) witness.now) }
    ensures last { OnOk result (last.new.items
        ≡ last.old.items ++ filter (shaken witness.now) (clause ∷ [])) }
{
    if is_shaken(witness, clause.lits()) {
        last.push(clause).map_err(|_| NoMemory)?;
    } else {
        first.push(clause).map_err(|_| NoMemory)?;
    }
    Ok(())
}

// Appends the clause.
fn join(alloc: Global, lits: &[Lit], clauses: &mut Vec<Clause>) -> Result<(), NoMemory>
    requires { no_repeats lits.now ≡ true }
    ensures { OnOk result (clauses.new.items ≡ clauses.old.items ++ lits.now ∷ []) }
{
    let clause = Clause::collect(alloc, lits)?;
    clauses.push(clause).map_err(|_| NoMemory)?;
    Ok(())
}

// Takes out the first clause that has the same literals.
fn remove(lits: &[Lit], clauses: &mut Vec<Clause>)
    ensures { clauses.new.items ≡ remove_clause clauses.old.items lits.now }
{
    let at = place_of(clauses.as_slice(), lits);
    if at < clauses.len() {
        clauses.remove(at);
    }
}

// The place of the first clause that has the same literals, or the number of clauses.
fn place_of(clauses: &[Clause], lits: &[Lit]) -> usize
    ensures bound { result ≤ length clauses.now }
    ensures before { list_any (λ c. same_set c lits.now) (take result clauses.now) ≡ false }
    ensures here { result < length clauses.now
        → same_set (clause_at clauses.now result) lits.now ≡ true }
{
    for at in 0..clauses.len() {
        if is_same_set(clauses[at].lits(), lits) {
            return at;
        }
    }
    clauses.len()
}
