//! A proof read, checked and kept.
ghost use Rattle.std.specs.Prelude.{◌≡◌, ◌≤◌, [], IsTrue, IfOk, map};
ghost use Rattle.sdcl_base.specs.Sets.{WithinVariables};
ghost use Rattle.sdcl_base.specs.declared.lit.TheConstants.{MAX_VARIABLE};
ghost use Rattle.sdcl_proof.specs.declared.step.Dialect.TheVariants.{Pr};
ghost use Rattle.sdcl_proof.specs.declared.step_reader.TheConstants.{PROOF_LIMIT};
ghost use Rattle.sdcl_proof.specs.Steps.{step_of};
ghost use Rattle.sdcl_proof.specs.Stepping.{stepping, IsUnfailed};
ghost use Rattle.sdcl_store.specs.Stores.{clauses_in};
ghost use Rattle.sdcl_convert.specs.Loading.{LoadsProof, Collects, KeepsProof, IsRefutation, SaysVerified};

use crate::checked::{Checked, greatest_of, witnesses_of};
use sdcl_base::{MAX_VARIABLE, NoMemory};
use sdcl_io::World;
use sdcl_prcheck::{Taken, Verdict, database_of, judge_step};
use sdcl_proof::{ProofError, Step, StepReader};
use sdcl_rup::Database;
use sdcl_store::Store;
use std::alloc::Global;

/// What a proof is, for a conversion.
#[derive(Drop)]
pub enum Loaded {
    /// The steps refute the formula.
    Valid(Checked),
    /// The step of this number, counted from 1, is not valid; or it does not stand, and the steps before it refute
    /// nothing.
    NotVerified { step: u64 },
    /// The steps refute the formula, but the conversion would need this variable.
    TooManyVariables { needed: u64 },
}

/// Reads, checks and keeps the proof that the reader stands at the start of, up to its first added empty clause. The
/// proof is judged over the formula, whose variables are from 1 to `variables`.
pub fn load<W: World>(
    alloc: Global,
    reader: &mut StepReader<'_, W>,
    formula: Store,
    variables: u32,
) -> Result<Loaded, ProofError>
    requires open { IsTrue ((stepping reader.old).words.reading.world.is_open
        (stepping reader.old).words.reading.role) }
    requires dialect { (stepping reader.old).dialect ≡ Pr }
    requires sound { IsUnfailed (stepping reader.old) }
    requires limit { (stepping reader.old).words.reading.limit ≤ PROOF_LIMIT }
    requires few { variables ≤ MAX_VARIABLE }
    requires within { WithinVariables variables (clauses_in formula) }
    ensures same_reference { reader.new.words.reader.world.ghost_name ≡
        reader.old.words.reader.world.ghost_name }
    ensures loads { LoadsProof variables (clauses_in formula) (stepping reader.old)
        (stepping reader.new) result }
    ensures follows { W.follows reader.old.words.reader.world.now
        reader.new.words.reader.world.now }
{
    let mut database = database_of(alloc, &formula, variables)?;
    let mut steps = Vec::new(alloc);
    match collect(alloc, reader, &mut database, &mut steps)? {
        Verdict::Verified => Ok(keep(variables, formula, steps)),
        Verdict::NotVerified { step } => Ok(Loaded::NotVerified { step }),
    }
}

// Judges the proof, and collects the steps that were taken.
fn collect<W: World>(
    alloc: Global,
    reader: &mut StepReader<'_, W>,
    database: &mut Database,
    kept: &mut Vec<Step>,
) -> Result<Verdict, ProofError>
    requires open { IsTrue ((stepping reader.old).words.reading.world.is_open
        (stepping reader.old).words.reading.role) }
    requires sound { IsUnfailed (stepping reader.old) }
    requires limit { (stepping reader.old).words.reading.limit ≤ PROOF_LIMIT }
    requires empty { kept.old.items ≡ [] }
    ensures same_reference { reader.new.words.reader.world.ghost_name ≡
        reader.old.words.reader.world.ghost_name }
    ensures collects { Collects database.old.clauses kept.new.items (stepping reader.old)
        (stepping reader.new) result }
    ensures follows { W.follows reader.old.words.reader.world.now
        reader.new.words.reader.world.now }
{
    let mut taken = 0u64;
    'steps: while let Some(step) = reader.next(alloc)? {
        let found = judge_step(database, &step)?;
        kept.push(step).map_err(|_| NoMemory)?;
        match found {
            Taken::Invalid => return Ok(Verdict::NotVerified { step: taken + 1 }),
            Taken::Closing => return Ok(Verdict::Verified),
            Taken::Going => taken += 1,
        }
    }
    if database.refutes(&[]) {
        return Ok(Verdict::Verified);
    }
    Ok(Verdict::NotVerified { step: taken + 1 })
}

// Keeps the formula and its proof, if there are variables enough for the conversion.
fn keep(variables: u32, formula: Store, steps: Vec<Step>) -> Loaded
    requires few { variables ≤ MAX_VARIABLE }
    requires within { WithinVariables variables (clauses_in formula) }
    requires refutation { IsRefutation (clauses_in formula) (map step_of steps.items) }
    ensures keeps { KeepsProof variables (clauses_in formula) (map step_of steps.items) result }
    ensures verified { SaysVerified result }
{
    let greatest = greatest_of(variables, steps.as_slice());
    let needed = greatest as u64 + witnesses_of(steps.as_slice()) as u64;
    if needed > MAX_VARIABLE as u64 {
        return Loaded::TooManyVariables { needed };
    }
    Loaded::Valid(Checked {
        variables,
        formula,
        steps,
        greatest,
    })
}
