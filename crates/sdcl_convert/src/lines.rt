//! The lines that stand for one step of a proof.
//!
//! A block stands for the addition of a clause with a witness (after Heule and Biere, "What a difference a variable
//! makes", TACAS 2018). A new variable x says that the assignment is to be changed as the witness says. Each clause
//! that the change would shorten is stated for the case not x; the clause itself and all clauses that the change could
//! make false are weakened by x; then x implies the witness, and the clauses follow as they were. In the end no clause
//! with x is left. A block has two lines for each shortened clause and four for each weakened one.
ghost use Rattle.std.specs.Prelude.{◌≡◌, ◌≤◌, true, [], ◌∷◌, ◌++◌, IfOk, OnOk, map};
ghost use Rattle.std.specs.List.{filter};
ghost use Rattle.sdcl_base.specs.declared.lit.TheConstants.{MAX_VARIABLE};
ghost use Rattle.sdcl_base.specs.Literal.{pos_lit, neg_lit, without_complements};
ghost use Rattle.sdcl_base.specs.Marks.{no_repeats};
ghost use Rattle.sdcl_io.specs.Step.{All, Add, AddWitness, Delete};
ghost use Rattle.sdcl_proof.specs.Steps.{step_of};
ghost use Rattle.sdcl_convert.specs.Conversion.{shaken, reduced_lines, weakening, implied, block, lines_of, has_witness};
ghost use Rattle.sdcl_convert.specs.Laws.{Below, AllBelow, StepBelow};
ghost use Rattle.sdcl_convert.specs.Lines.{lines_in, line_step, taken_back};

use crate::sets::{has, is_reduced, is_shaken};
use sdcl_base::{Clause, Lit, NoMemory};
use sdcl_proof::Step;
use std::alloc::Global;

/// A line without a witness.
#[derive(Drop)]
pub(crate) enum Line {
    Add(Clause),
    Remove(Clause),
}

// The lines of a step over these clauses, with x where the step has a witness.
pub(crate) fn lines_of(
    alloc: Global,
    clauses: &[Clause],
    step: &Step,
    x: u32,
) -> Result<Vec<Line>, NoMemory>
    requires positive { 1 ≤ x }
    requires room { has_witness (step_of step.now) ≡ true → x ≤ MAX_VARIABLE }
    requires clauses { AllBelow x clauses.now }
    requires step { StepBelow x (step_of step.now) }
    ensures { IfOk result (λ lines. lines_in lines.items ≡ lines_of All clauses.now x
        (step_of step.now)) }
{
    match step {
        Step::Remove { clause } => {
            let mut lines = Vec::new(alloc);
            push_remove(alloc, clause.lits(), &mut lines)?;
            Ok(lines)
        }
        Step::Add { clause, witness } => match witness {
            None => {
                let mut lines = Vec::new(alloc);
                push_add(alloc, clause.lits(), &mut lines)?;
                Ok(lines)
            }
            Some(chosen) => block(alloc, clauses, clause.lits(), chosen.lits(), variable(x)),
        },
    }
}

// The positive literal of a variable.
fn variable(x: u32) -> Lit
    requires low { 1 ≤ x }
    requires high { x ≤ MAX_VARIABLE }
    ensures { result ≡ pos_lit x }
{
    match Lit::from_code(2 * x as usize) {
        Some(l) => l,
        None => unreachable!(),
    }
}

// The block of the clause with the witness.
fn block(
    alloc: Global,
    clauses: &[Clause],
    clause: &[Lit],
    witness: &[Lit],
    x: Lit,
) -> Result<Vec<Line>, NoMemory>
    requires positive { x ≡ pos_lit x.var }
    requires distinct { no_repeats clause.now ≡ true }
    requires clauses { AllBelow x.var clauses.now }
    requires clause { Below x.var clause.now }
    requires witness { Below x.var witness.now }
    ensures { IfOk result (λ lines. lines_in lines.items ≡
        block clauses.now clause.now witness.now x.var) }
{
    let mut lines = Vec::new(alloc);
    push_reduced(alloc, clauses, witness, x, &mut lines)?;
    push_own(alloc, clause, x, &mut lines)?;
    push_weakening(alloc, clauses, witness, x, &mut lines)?;
    push_implied(alloc, witness, x, &mut lines)?;
    let mut last = take_back(alloc, lines.as_slice())?;
    push_shaken(alloc, clauses, witness, &mut lines)?;
    push_add(alloc, clause, &mut lines)?;
    lines.append(&mut last).map_err(|_| NoMemory)?;
    Ok(lines)
}

// Part 1: each reduced clause, shortened, for the case not x.
fn push_reduced(
    alloc: Global,
    clauses: &[Clause],
    witness: &[Lit],
    x: Lit,
    lines: &mut Vec<Line>,
) -> Result<(), NoMemory>
    requires positive { x ≡ pos_lit x.var }
    requires clauses { AllBelow x.var clauses.now }
    ensures { OnOk result (lines_in lines.new.items ≡ lines_in lines.old.items ++ map Add
        (reduced_lines clauses.now witness.now x.var)) }
{
    for clause in clauses {
        push_if_reduced(alloc, clause.lits(), witness, x, lines)?;
    }
    Ok(())
}

fn push_if_reduced(
    alloc: Global,
    clause: &[Lit],
    witness: &[Lit],
    x: Lit,
    lines: &mut Vec<Line>,
) -> Result<(), NoMemory>
    requires positive { x ≡ pos_lit x.var }
    requires distinct { no_repeats clause.now ≡ true }
    requires clause { Below x.var clause.now }
    ensures { OnOk result (lines_in lines.new.items ≡ lines_in lines.old.items ++ map Add
        (reduced_lines (clause.now ∷ []) witness.now x.var)) }
{
    if is_reduced(witness, clause) {
        push_short(alloc, clause, witness, x, lines)
    } else {
        Ok(())
    }
}

fn push_short(
    alloc: Global,
    clause: &[Lit],
    witness: &[Lit],
    x: Lit,
    lines: &mut Vec<Line>,
) -> Result<(), NoMemory>
    requires positive { x ≡ pos_lit x.var }
    requires distinct { no_repeats clause.now ≡ true }
    requires clause { Below x.var clause.now }
    ensures { OnOk result (lines_in lines.new.items ≡ lines_in lines.old.items ++ Add
        (neg_lit x.var ∷ without_complements clause.now witness.now) ∷ []) }
{
    let mut lits = Vec::new(alloc);
    lits.push(x.negated()).map_err(|_| NoMemory)?;
    for l in clause {
        if !has(witness, l.negated()) {
            lits.push(*l).map_err(|_| NoMemory)?;
        }
    }
    push_add(alloc, lits.as_slice(), lines)
}

// Part 2: the clause, or x.
fn push_own(alloc: Global, clause: &[Lit], x: Lit, lines: &mut Vec<Line>) -> Result<(), NoMemory>
    requires positive { x ≡ pos_lit x.var }
    requires distinct { no_repeats clause.now ≡ true }
    requires clause { Below x.var clause.now }
    ensures { OnOk result (lines_in lines.new.items ≡ lines_in lines.old.items ++ Add
        (pos_lit x.var ∷ clause.now) ∷ []) }
{
    let mut lits = Vec::new(alloc);
    lits.push(x).map_err(|_| NoMemory)?;
    lits.extend_from_slice(clause).map_err(|_| NoMemory)?;
    push_add(alloc, lits.as_slice(), lines)
}

// Part 3: each shaken clause, weakened by x in its place.
fn push_weakening(
    alloc: Global,
    clauses: &[Clause],
    witness: &[Lit],
    x: Lit,
    lines: &mut Vec<Line>,
) -> Result<(), NoMemory>
    requires positive { x ≡ pos_lit x.var }
    requires clauses { AllBelow x.var clauses.now }
    ensures { OnOk result (lines_in lines.new.items ≡ lines_in lines.old.items
        ++ weakening clauses.now witness.now x.var) }
{
    for clause in clauses {
        push_if_shaken(alloc, clause.lits(), witness, x, lines)?;
    }
    Ok(())
}

fn push_if_shaken(
    alloc: Global,
    clause: &[Lit],
    witness: &[Lit],
    x: Lit,
    lines: &mut Vec<Line>,
) -> Result<(), NoMemory>
    requires positive { x ≡ pos_lit x.var }
    requires distinct { no_repeats clause.now ≡ true }
    requires clause { Below x.var clause.now }
    ensures { OnOk result (lines_in lines.new.items ≡ lines_in lines.old.items ++ weakening
        (clause.now ∷ []) witness.now x.var) }
{
    if is_shaken(witness, clause) {
        push_weak(alloc, clause, x, lines)?;
        push_remove(alloc, clause, lines)
    } else {
        Ok(())
    }
}

fn push_weak(alloc: Global, clause: &[Lit], x: Lit, lines: &mut Vec<Line>) -> Result<(), NoMemory>
    requires positive { x ≡ pos_lit x.var }
    requires distinct { no_repeats clause.now ≡ true }
    requires clause { Below x.var clause.now }
    ensures { OnOk result (lines_in lines.new.items ≡ lines_in lines.old.items ++ Add
        (clause.now ++ pos_lit x.var ∷ []) ∷ []) }
{
    let mut lits = Vec::new(alloc);
    lits.extend_from_slice(clause).map_err(|_| NoMemory)?;
    lits.push(x).map_err(|_| NoMemory)?;
    push_add(alloc, lits.as_slice(), lines)
}

// Part 4: x implies each literal of the witness.
fn push_implied(
    alloc: Global,
    witness: &[Lit],
    x: Lit,
    lines: &mut Vec<Line>,
) -> Result<(), NoMemory>
    requires positive { x ≡ pos_lit x.var }
    requires witness { Below x.var witness.now }
    ensures { OnOk result (lines_in lines.new.items ≡ lines_in lines.old.items ++ map Add
        (implied witness.now x.var)) }
{
    for l in witness {
        push_add(alloc, &[*l, x.negated()], lines)?;
    }
    Ok(())
}

// Part 5: each shaken clause, as it was.
fn push_shaken(
    alloc: Global,
    clauses: &[Clause],
    witness: &[Lit],
    lines: &mut Vec<Line>,
) -> Result<(), NoMemory>
    ensures { OnOk result (lines_in lines.new.items ≡ lines_in lines.old.items ++ map Add
        (filter (shaken witness.now) clauses.now)) }
{
    for clause in clauses {
        push_again(alloc, clause.lits(), witness, lines)?;
    }
    Ok(())
}

fn push_again(
    alloc: Global,
    clause: &[Lit],
    witness: &[Lit],
    lines: &mut Vec<Line>,
) -> Result<(), NoMemory>
    requires distinct { no_repeats clause.now ≡ true }
    ensures { OnOk result (lines_in lines.new.items ≡ lines_in lines.old.items ++ map Add
        (filter (shaken witness.now) (clause.now ∷ []))) }
{
    if is_shaken(witness, clause) {
        push_add(alloc, clause, lines)
    } else {
        Ok(())
    }
}

// Part 7: the deletion of each clause that the lines add.
fn take_back(alloc: Global, lines: &[Line]) -> Result<Vec<Line>, NoMemory>
    ensures { IfOk result (λ more. lines_in more.items ≡ taken_back (lines_in lines.now)) }
{
    let mut more = Vec::new(alloc);
    for line in lines {
        push_back(alloc, line, &mut more)?;
    }
    Ok(more)
}

fn push_back(alloc: Global, line: &Line, lines: &mut Vec<Line>) -> Result<(), NoMemory>
    ensures { OnOk result (lines_in lines.new.items ≡ lines_in lines.old.items ++ taken_back
        (line_step line.now ∷ [])) }
{
    match line {
        Line::Add(clause) => push_remove(alloc, clause.lits(), lines),
        Line::Remove(_) => Ok(()),
    }
}

// Appends the addition of the literals.
fn push_add(alloc: Global, lits: &[Lit], lines: &mut Vec<Line>) -> Result<(), NoMemory>
    requires { no_repeats lits.now ≡ true }
    ensures { OnOk result (lines_in lines.new.items ≡ lines_in lines.old.items
        ++ Add lits.now ∷ []) }
{
    let clause = Clause::collect(alloc, lits)?;
    lines.push(Line::Add(clause)).map_err(|_| NoMemory)?;
    Ok(())
}

// Appends the deletion of the literals.
fn push_remove(alloc: Global, lits: &[Lit], lines: &mut Vec<Line>) -> Result<(), NoMemory>
    requires { no_repeats lits.now ≡ true }
    ensures { OnOk result (lines_in lines.new.items ≡ lines_in lines.old.items
        ++ Delete lits.now ∷ []) }
{
    let clause = Clause::collect(alloc, lits)?;
    lines.push(Line::Remove(clause)).map_err(|_| NoMemory)?;
    Ok(())
}
