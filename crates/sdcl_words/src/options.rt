//! The options of `solve`.
ghost use Rattle.std.specs.Prelude.{◌≡◌, ◌≤◌, IfSome};
ghost use Rattle.clap.specs.Words.{rows_of, found_of};
ghost use Rattle.sdcl_base.specs.declared.lit.TheConstants.{MAX_VARIABLE};
ghost use Rattle.sdcl_words.specs.Planning.{options_given};

use crate::value::{number_option, word_option};
use clap::ArgMatches;
use sdcl_base::{MAX_VARIABLE, ReductMode};
use sdcl_decide::DecideKind;
use sdcl_outer::Options;
use sdcl_restart::RestartKind;

/// The greatest budget of learned clauses, of the solver and of an inner solver.
pub const MOST_LEARNED: u64 = 1_000_000_000;

/// The greatest number of decisions at which a reduct is solved.
pub const MOST_DECISIONS: u64 = MAX_VARIABLE as u64;

// What an option's word stands for.
const REDUCTS: [(&str, ReductMode); 3] = [
    ("off", ReductMode::Off),
    ("positive", ReductMode::Positive),
    ("filtered", ReductMode::Filtered),
];

const DECISIONS: [(&str, DecideKind); 3] = [
    ("static", DecideKind::Static),
    ("front", DecideKind::MoveToFront),
    ("scored", DecideKind::Scored),
];

const RESTARTS: [(&str, RestartKind); 3] = [
    ("none", RestartKind::Never),
    ("luby", RestartKind::Luby),
    ("glue", RestartKind::Glue),
];

/// The options that are given, and the defaults of the others. None where a value is none of its
/// option's.
pub fn options_of(matches: &ArgMatches<'_>) -> Option<Options>
    ensures value { result ≡ options_given (rows_of (found_of matches.now)) }
    ensures budget { IfSome result (λ o. o.budget ≤ MOST_LEARNED) }
    ensures depth { IfSome result (λ o. o.depth ≤ MAX_VARIABLE) }
    ensures inner_budget { IfSome result (λ o. o.inner_budget ≤ MOST_LEARNED) }
{
    let budget = number_option(matches, "budget", 0, MOST_LEARNED, 10_000_000)?;
    let reduct = word_option(matches, "reduct", &REDUCTS, ReductMode::Filtered)?;
    let depth = number_option(matches, "depth", 0, MOST_DECISIONS, 20)?;
    let inner_budget = number_option(matches, "inner-budget", 0, MOST_LEARNED, 1_000)?;
    let decide = word_option(matches, "decide", &DECISIONS, DecideKind::Static)?;
    let restart = word_option(matches, "restart", &RESTARTS, RestartKind::Never)?;
    Some(Options {
        budget,
        reduct,
        depth: depth as u32,
        inner_budget,
        decide,
        restart,
    })
}
