//! The plan that the words of a command line make.
ghost use Rattle.std.specs.Prelude.{◌≡◌, IfOk, IsErrOf, Some, None};
ghost use Rattle.clap.specs.Words.{rows_of, found_of};
ghost use Rattle.std.specs.Str.{bytes_eq};
ghost use Rattle.sdcl_words.specs.Plans.{plan_in, Answers, AreApart, AreWithin};
ghost use Rattle.sdcl_words.specs.Plans as spec;
ghost use Rattle.sdcl_words.specs.Planning.{planned, planned_by, solve_planned, check_planned};
ghost use Rattle.sdcl_words.specs.Planning.{drat_planned, convert_planned, drill_planned};

use crate::command::read;
use crate::name::Name;
use crate::options::options_of;
use crate::plan::{MOST_DRILLED, Plan, PlanError};
use crate::value::{name_at, wanted_name, wanted_number};
use crate::verb::{Verb, verb_of};
use clap::ArgMatches;
use std::alloc::Global;

/// The plan that the words make; the first names the command. Usage exactly where they make none.
pub fn plan_of(alloc: Global, words: &[String]) -> Result<Plan, PlanError>
    ensures plan { IfOk result (λ p. planned words.now ≡ Some (plan_in p)) }
    ensures apart { IfOk result (λ p. AreApart (plan_in p)) }
    ensures within { IfOk result (λ p. AreWithin (plan_in p)) }
    ensures none { IsErrOf result PlanError.Usage → planned words.now ≡ None }
{
    let Some(verb) = verb_of(words) else {
        return Err(PlanError::Usage);
    };
    let matches = read(alloc, verb, words)?;
    plan_by(alloc, verb, &matches)
}

// The plan of a command, by what its arguments give.
fn plan_by(alloc: Global, verb: Verb, matches: &ArgMatches<'_>) -> Result<Plan, PlanError>
    ensures { Answers (planned_by verb (rows_of (found_of matches.now))) result }
{
    match verb {
        Verb::Solve => solve(alloc, matches),
        Verb::Check => check(alloc, matches),
        Verb::Drat => drat(alloc, matches),
        Verb::Convert => convert(alloc, matches),
        Verb::Drill => drill(matches),
    }
}

// The solving that the arguments ask for, where what is written has a name of its own.
fn solve(alloc: Global, matches: &ArgMatches<'_>) -> Result<Plan, PlanError>
    ensures { Answers (solve_planned (rows_of (found_of matches.now))) result }
{
    let formula = wanted_name(alloc, matches, "cnf")?;
    let proof = name_at(alloc, matches, "proof")?;
    let journal = name_at(alloc, matches, "journal")?;
    let options = options_of(matches).ok_or(PlanError::Usage)?;
    if are_apart(&formula, &proof, &journal) {
        Ok(Plan::Solve {
            formula,
            proof,
            journal,
            options,
        })
    } else {
        Err(PlanError::Usage)
    }
}

fn check(alloc: Global, matches: &ArgMatches<'_>) -> Result<Plan, PlanError>
    ensures { Answers (check_planned (rows_of (found_of matches.now))) result }
{
    let formula = wanted_name(alloc, matches, "cnf")?;
    let proof = wanted_name(alloc, matches, "proof")?;
    Ok(Plan::Check { formula, proof })
}

fn drat(alloc: Global, matches: &ArgMatches<'_>) -> Result<Plan, PlanError>
    ensures { Answers (drat_planned (rows_of (found_of matches.now))) result }
{
    let formula = wanted_name(alloc, matches, "cnf")?;
    let proof = wanted_name(alloc, matches, "proof")?;
    Ok(Plan::Drat { formula, proof })
}

// The conversion that the arguments ask for, where what is written has a name of its own.
fn convert(alloc: Global, matches: &ArgMatches<'_>) -> Result<Plan, PlanError>
    ensures { Answers (convert_planned (rows_of (found_of matches.now))) result }
{
    let formula = wanted_name(alloc, matches, "cnf")?;
    let proof = wanted_name(alloc, matches, "proof")?;
    let out = wanted_name(alloc, matches, "out")?;
    if !is_equal(&out, &formula) && !is_equal(&out, &proof) {
        Ok(Plan::Convert {
            formula,
            proof,
            out,
        })
    } else {
        Err(PlanError::Usage)
    }
}

fn drill(matches: &ArgMatches<'_>) -> Result<Plan, PlanError>
    ensures { Answers (drill_planned (rows_of (found_of matches.now))) result }
{
    match wanted_number(matches, "holes", 1, u64::from(MOST_DRILLED)) {
        Some(holes) => Ok(Plan::Drill {
            holes: holes as u32,
        }),
        None => Err(PlanError::Usage),
    }
}

// Whether what is written has a name of its own.
fn are_apart(formula: &Name, proof: &Option<Name>, journal: &Option<Name>) -> bool
    ensures { result ≡ spec.are_apart (record {
      formula = formula.now;
      proof = proof.now;
      journal = journal.now;
    }) }
{
    !has_name(proof, formula) && !has_name(journal, formula) && !is_same(journal, proof)
}

fn is_same(a: &Option<Name>, b: &Option<Name>) -> bool
    ensures { result ≡ spec.is_same a.now b.now }
{
    match b {
        Some(name) => has_name(a, name),
        None => false,
    }
}

fn has_name(own: &Option<Name>, name: &Name) -> bool
    ensures { result ≡ spec.has_name own.now name.now }
{
    match own {
        Some(own) => is_equal(own, name),
        None => false,
    }
}

fn is_equal(a: &Name, b: &Name) -> bool
    ensures { result ≡ bytes_eq a.now b.now }
{
    a.as_str() == b.as_str()
}
