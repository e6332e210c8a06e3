//! Lists of words, and the plan that each makes. A list stands as one text, its words between bars.
use crate::{Name, Plan, PlanError, plan_of};
use sdcl_base::ReductMode;
use sdcl_decide::DecideKind;
use sdcl_outer::Options;
use sdcl_restart::RestartKind;
use std::alloc::{AllocError, Global};
use std::test::Fail;

// The options where none is given.
const STANDARD: Options = Options {
    budget: 10_000_000,
    reduct: ReductMode::Filtered,
    depth: 20,
    inner_budget: 1_000,
    decide: DecideKind::Static,
    restart: RestartKind::Never,
};

// What a plan is to ask for.
#[derive(Clone, Copy)]
enum Wanted<'t> {
    Solve(&'t str, Option<&'t str>, Option<&'t str>),
    Check(&'t str, &'t str),
    Drat(&'t str, &'t str),
    Convert(&'t str, &'t str, &'t str),
    Drill(u32),
}

fn words_of(alloc: Global, text: &str) -> Result<Vec<String>, AllocError> {
    let mut words = Vec::new(alloc);
    for word in text.split('|') {
        words.push(String::from_str(alloc, word)?)?;
    }
    Ok(words)
}

// The plan of the words, if they make one.
fn made(alloc: Global, text: &str) -> Result<Option<Plan>, Fail> {
    let words = words_of(alloc, text)?;
    match plan_of(alloc, words.as_slice()) {
        Ok(plan) => Ok(Some(plan)),
        Err(PlanError::Usage) => Ok(None),
        Err(PlanError::NoMemory) => Err(Fail::from(AllocError)),
    }
}

fn is_name(name: &Option<Name>, wanted: Option<&str>) -> bool {
    match (name, wanted) {
        (Some(name), Some(wanted)) => name.as_str() == wanted,
        (None, None) => true,
        _ => false,
    }
}

// Whether the plan asks for this, and to solve with the standard options.
fn asks_for(plan: &Plan, wanted: Wanted<'_>) -> bool {
    match (plan, wanted) {
        (
            Plan::Solve {
                formula,
                proof,
                journal,
                options,
            },
            Wanted::Solve(f, p, j),
        ) => {
            let named = is_name(proof, p) && is_name(journal, j);
            formula.as_str() == f && named && *options == STANDARD
        }
        (Plan::Check { formula, proof }, Wanted::Check(f, p)) => {
            formula.as_str() == f && proof.as_str() == p
        }
        (Plan::Drat { formula, proof }, Wanted::Drat(f, p)) => {
            formula.as_str() == f && proof.as_str() == p
        }
        (
            Plan::Convert {
                formula,
                proof,
                out,
            },
            Wanted::Convert(f, p, o),
        ) => formula.as_str() == f && proof.as_str() == p && out.as_str() == o,
        (Plan::Drill { holes }, Wanted::Drill(n)) => *holes == n,
        _ => false,
    }
}

fn makes(alloc: Global, text: &str, wanted: Wanted<'_>) -> Result<bool, Fail> {
    match made(alloc, text)? {
        Some(plan) => Ok(asks_for(&plan, wanted)),
        None => Ok(false),
    }
}

// The options of `solve f` and these words, if that is a plan.
fn options_in(alloc: Global, text: &str) -> Result<Option<Options>, Fail> {
    let whole = format!(in alloc; "solve|f|{text}")?;
    match made(alloc, whole.as_str())? {
        Some(Plan::Solve { options, .. }) => Ok(Some(options)),
        _ => Ok(None),
    }
}

// What each list of words asks for.
const PLANS: &[(&str, Wanted<'static>)] = &[
    ("solve|f", Wanted::Solve("f", None, None)),
    ("solve|f|p", Wanted::Solve("f", Some("p"), None)),
    ("solve|f|--journal=j", Wanted::Solve("f", None, Some("j"))),
    (
        "solve|--journal=j|f|p",
        Wanted::Solve("f", Some("p"), Some("j")),
    ),
    (
        "solve|f|--journal|j|p",
        Wanted::Solve("f", Some("p"), Some("j")),
    ),
    ("check|f|p", Wanted::Check("f", "p")),
    ("check|f|f", Wanted::Check("f", "f")),
    ("drat|f|p", Wanted::Drat("f", "p")),
    ("convert|f|p|o", Wanted::Convert("f", "p", "o")),
    ("convert|f|f|o", Wanted::Convert("f", "f", "o")),
    ("drill|1", Wanted::Drill(1)),
    ("drill|32", Wanted::Drill(32)),
    ("drill|0000000007", Wanted::Drill(7)),
    // `-` and an empty word are names, and so is every word behind `--`
    ("solve|-", Wanted::Solve("-", None, None)),
    ("solve||p", Wanted::Solve("", Some("p"), None)),
    ("solve|f|--|p", Wanted::Solve("f", Some("p"), None)),
    ("solve|f|p|--", Wanted::Solve("f", Some("p"), None)),
    (
        "solve|--|-h|--help",
        Wanted::Solve("-h", Some("--help"), None),
    ),
    ("check|--|-x|--", Wanted::Check("-x", "--")),
    ("solve|f|--journal=", Wanted::Solve("f", None, Some(""))),
    ("solve|f|--journal=--", Wanted::Solve("f", None, Some("--"))),
    (
        "solve|f|--journal=a=b",
        Wanted::Solve("f", None, Some("a=b")),
    ),
    ("solve|f|--journal|-", Wanted::Solve("f", None, Some("-"))),
    ("convert|a b|é|\t", Wanted::Convert("a b", "é", "\t")),
];

// The first list of words that asks for something else.
fn other_plan(alloc: Global) -> Result<Option<usize>, Fail> {
    for (at, (text, wanted)) in PLANS.iter().enumerate() {
        if !makes(alloc, text, *wanted)? {
            return Ok(Some(at));
        }
    }
    Ok(None)
}

#[test]
fn each_command_names_its_files(rt: HostRuntime) -> Result<(), Fail> {
    assert_eq!(rt; other_plan(rt.alloc())?, None);
    Ok(())
}

// Words that make no plan.
const NO_PLANS: &[&str] = &[
    // what is written has a name of its own
    "solve|f|f",
    "solve||",
    "solve|f|p|--journal=f",
    "solve|f|p|--journal=p",
    "convert|f|p|f",
    "convert|f|p|p",
    // the first word is a command
    "",
    "Solve|f",
    "solver|f",
    "--|solve|f",
    "help",
    "--version",
    // each command takes its own words
    "solve",
    "solve|--help",
    "solve|f|-h",
    "solve|f|-V",
    "solve|f|p|q",
    "solve|f|--journal",
    "solve|f|--journal|-x",
    "solve|f|--journal=a|--journal=a",
    "solve|f|--journ=a",
    "solve|f|-journal=a",
    "check|f",
    "check|f|p|o",
    "check|f|p|--budget=1",
    "drat|f",
    "drat|f|p|-h",
    "convert|f|p",
    "convert|f|p|o|q",
    "drill",
    "drill|0",
    "drill|33",
    "drill|1|2",
    "drill|--|-1",
    "drill|+1",
    "drill| 1",
    "drill|",
    "drill|00000000007",
    "drill|4294967297",
    // each option has its values
    "solve|f|--budget=1000000001",
    "solve|f|--budget=10000000000",
    "solve|f|--budget=00000000001",
    "solve|f|--budget=",
    "solve|f|--budget",
    "solve|f|--budget=-1",
    "solve|f|--budget=1x",
    "solve|f|--budget=١",
    "solve|f|--budget=1|--budget=2",
    "solve|f|--depth=4194304",
    "solve|f|--depth=4294967296",
    "solve|f|--inner-budget=1000000001",
    "solve|f|--inner_budget=1",
    "solve|f|--reduct=",
    "solve|f|--reduct=Off",
    "solve|f|--reduct=none",
    "solve|f|--decide=off",
    "solve|f|--restart=never",
    "solve|f|--restart=luby|--restart=luby",
    "solve|f|--budget=1|--depth=x",
];

// The first of them that does.
fn planned_after_all(alloc: Global) -> Result<Option<usize>, Fail> {
    for (at, text) in NO_PLANS.iter().enumerate() {
        if made(alloc, text)?.is_some() {
            return Ok(Some(at));
        }
    }
    Ok(None)
}

#[test]
fn other_words_make_no_plan(rt: HostRuntime) -> Result<(), Fail> {
    assert_eq!(rt; planned_after_all(rt.alloc())?, None);
    Ok(())
}

#[test]
fn no_words_make_no_plan(rt: HostRuntime) {
    assert!(rt; plan_of(rt.alloc(), &[]).is_err());
}

// Words of a solving, and the options that they give.
const OPTIONS: &[(&str, Options)] = &[
    (
        "--budget=0",
        Options {
            budget: 0,
            ..STANDARD
        },
    ),
    (
        "--budget|7",
        Options {
            budget: 7,
            ..STANDARD
        },
    ),
    (
        "--budget=0000000001",
        Options {
            budget: 1,
            ..STANDARD
        },
    ),
    (
        "--budget=1000000000",
        Options {
            budget: 1_000_000_000,
            ..STANDARD
        },
    ),
    (
        "--depth=0",
        Options {
            depth: 0,
            ..STANDARD
        },
    ),
    (
        "--depth=4194303",
        Options {
            depth: 4_194_303,
            ..STANDARD
        },
    ),
    (
        "--inner-budget=0",
        Options {
            inner_budget: 0,
            ..STANDARD
        },
    ),
    (
        "--inner-budget=1000000000",
        Options {
            inner_budget: 1_000_000_000,
            ..STANDARD
        },
    ),
    (
        "--reduct=positive",
        Options {
            reduct: ReductMode::Positive,
            ..STANDARD
        },
    ),
    ("--reduct=filtered", STANDARD),
    ("--decide=static", STANDARD),
    (
        "--decide=front",
        Options {
            decide: DecideKind::MoveToFront,
            ..STANDARD
        },
    ),
    ("--restart=none", STANDARD),
    (
        "--restart=luby",
        Options {
            restart: RestartKind::Luby,
            ..STANDARD
        },
    ),
    ("--journal=j", STANDARD),
    (
        "--restart=glue|p|--decide=scored|--inner-budget|3|--depth=2|--reduct=off|--budget=1",
        Options {
            budget: 1,
            reduct: ReductMode::Off,
            depth: 2,
            inner_budget: 3,
            decide: DecideKind::Scored,
            restart: RestartKind::Glue,
        },
    ),
];

// The first of them that gives others.
fn other_options(alloc: Global) -> Result<Option<usize>, Fail> {
    for (at, (text, wanted)) in OPTIONS.iter().enumerate() {
        if options_in(alloc, text)? != Some(*wanted) {
            return Ok(Some(at));
        }
    }
    Ok(None)
}

#[test]
fn each_option_has_its_range(rt: HostRuntime) -> Result<(), Fail> {
    assert_eq!(rt; other_options(rt.alloc())?, None);
    Ok(())
}
