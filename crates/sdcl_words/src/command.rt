//! The commands, as `clap` reads their words.
ghost use Rattle.std.specs.Prelude.{◌≡◌, IfOk, IsErrOf, Some, None, true, false};
ghost use Rattle.clap.specs.Words.{app_of, rule_of, rows_of, found_of};
ghost use Rattle.sdcl_words.specs.Taking.{number_rules, word_rules, with_arguments};
ghost use Rattle.sdcl_words.specs.Taking.{with_argument, wanted_rule, optional_rule, option_rule};
ghost use Rattle.sdcl_words.specs.Taking.{solve_app, judge_app, convert_app, drill_app};
ghost use Rattle.sdcl_words.specs.Taking.{app_for, rows_taken};

use crate::plan::PlanError;
use crate::verb::Verb;
use clap::error::ErrorKind;
use clap::{Arg, ArgAction, ArgMatches, Command};
use std::alloc::{AllocError, Global};

#[tactic(auto, unfolding(crate::specs::Taking::with_argument))]
// A command with one argument more.
fn with<'a>(command: Command<'a>, arg: Arg<'a>) -> Result<Command<'a>, AllocError>
    requires { arg.global ≡ false }
    ensures { IfOk result (λ c.
        app_of c ≡ with_argument (app_of command.entry) (rule_of arg.entry)) }
{
    command.arg(arg)
}

// A command with one argument more, which has to be there.
fn wanting<'a>(alloc: Global, command: Command<'a>, id: &'a str) -> Result<Command<'a>, AllocError>
    ensures { IfOk result (λ c.
        app_of c ≡ with_argument (app_of command.entry) (wanted_rule id.entry.now)) }
{
    with(
        command,
        Arg::new(alloc, id).required(true).action(ArgAction::Set),
    )
}

// A command with one argument more, which may be missing.
fn allowing<'a>(alloc: Global, command: Command<'a>, id: &'a str) -> Result<Command<'a>, AllocError>
    ensures { IfOk result (λ c.
        app_of c ≡ with_argument (app_of command.entry) (optional_rule id.entry.now)) }
{
    with(command, Arg::new(alloc, id).action(ArgAction::Set))
}

// A command with one option `--id=VALUE` more.
fn with_option<'a>(
    alloc: Global,
    command: Command<'a>,
    id: &'a str,
) -> Result<Command<'a>, AllocError>
    ensures { IfOk result (λ c.
        app_of c ≡ with_argument (app_of command.entry) (option_rule id.entry.now)) }
{
    with(command, Arg::new(alloc, id).long(id).action(ArgAction::Set))
}

// The words of `solve`.
fn solve<'a>(alloc: Global) -> Result<Command<'a>, AllocError>
    ensures { IfOk result (λ c. app_of c ≡ solve_app) }
{
    let command = wanting(alloc, Command::new(alloc, "sdcl"), "cnf")?;
    let command = allowing(alloc, command, "proof")?;
    let command = with_option(alloc, command, "journal")?;
    let command = with_numbers(alloc, command)?;
    with_words(alloc, command)
}

// A command with the options of `solve` more whose values are numbers.
fn with_numbers<'a>(alloc: Global, command: Command<'a>) -> Result<Command<'a>, AllocError>
    ensures { IfOk result (λ c. app_of c ≡ with_arguments (app_of command.entry) number_rules) }
{
    let command = with_option(alloc, command, "budget")?;
    let command = with_option(alloc, command, "depth")?;
    with_option(alloc, command, "inner-budget")
}

// A command with the options of `solve` more whose values are words.
fn with_words<'a>(alloc: Global, command: Command<'a>) -> Result<Command<'a>, AllocError>
    ensures { IfOk result (λ c. app_of c ≡ with_arguments (app_of command.entry) word_rules) }
{
    let command = with_option(alloc, command, "reduct")?;
    let command = with_option(alloc, command, "decide")?;
    with_option(alloc, command, "restart")
}

// The words of `check` and `drat`.
fn judge<'a>(alloc: Global) -> Result<Command<'a>, AllocError>
    ensures { IfOk result (λ c. app_of c ≡ judge_app) }
{
    let command = wanting(alloc, Command::new(alloc, "sdcl"), "cnf")?;
    wanting(alloc, command, "proof")
}

// The words of `convert`.
fn convert<'a>(alloc: Global) -> Result<Command<'a>, AllocError>
    ensures { IfOk result (λ c. app_of c ≡ convert_app) }
{
    wanting(alloc, judge(alloc)?, "out")
}

// The words of `drill`.
fn drill<'a>(alloc: Global) -> Result<Command<'a>, AllocError>
    ensures { IfOk result (λ c. app_of c ≡ drill_app) }
{
    wanting(alloc, Command::new(alloc, "sdcl"), "holes")
}

// The words that a command takes.
fn command_for<'a>(alloc: Global, verb: Verb) -> Result<Command<'a>, AllocError>
    ensures { IfOk result (λ c. app_of c ≡ app_for verb) }
{
    match verb {
        Verb::Solve => solve(alloc),
        Verb::Check => judge(alloc),
        Verb::Drat => judge(alloc),
        Verb::Convert => convert(alloc),
        Verb::Drill => drill(alloc),
    }
}

/// The arguments of a command that the words give.
pub fn read<'a>(alloc: Global, verb: Verb, words: &'a [String]) -> Result<ArgMatches<'a>, PlanError>
    ensures taken { IfOk result (λ m.
        rows_taken (app_for verb) words.now ≡ Some (rows_of (found_of m))) }
    ensures refused { IsErrOf result PlanError.Usage
        → rows_taken (app_for verb) words.now ≡ None }
{
    let command = command_for(alloc, verb)?;
    match command.try_get_matches_from(words) {
        Ok(matches) => Ok(matches),
        Err(error) => {
            if error.kind() == ErrorKind::OutOfMemory {
                Err(PlanError::NoMemory)
            } else {
                Err(PlanError::Usage)
            }
        }
    }
}
