//! Runs in which a call fails.
use crate::tests::converting::{CONVERT, COPIES, COPIES_LINES, COPIES_PROOF};
use crate::tests::drilling::{DRILL, TWO_HOLES};
use crate::tests::{Ended, Files, Left, NOTHING, Run, SOLVE, THREE_PIGEONS, end};
use sdcl_io::{CallKind, InRole, OutRole};
use std::alloc::Global;
use std::test::Fail;

// A kind of call, and the status and the line of a run in which one fails.
type Calls = (CallKind, u8, &'static [u8]);

const OPEN_FORMULA: Calls = (
    CallKind::Open(InRole::Formula),
    4,
    b"sdcl: open fault formula\n",
);

const OPEN_PROOF: Calls = (
    CallKind::Open(InRole::Proof),
    4,
    b"sdcl: open fault proof\n",
);

const READ_FORMULA: Calls = (
    CallKind::Read(InRole::Formula),
    5,
    b"sdcl: read fault formula\n",
);

const READ_PROOF: Calls = (
    CallKind::Read(InRole::Proof),
    5,
    b"sdcl: read fault proof\n",
);

const MAKE_PROOF: Calls = (
    CallKind::Create(OutRole::Proof),
    4,
    b"sdcl: open fault proof\n",
);

const WRITE_PROOF: Calls = (
    CallKind::Write(OutRole::Proof),
    6,
    b"sdcl: write fault proof\n",
);

const MAKE_OUTPUT: Calls = (
    CallKind::Create(OutRole::Proof),
    4,
    b"sdcl: open fault output\n",
);

const WRITE_OUTPUT: Calls = (
    CallKind::Write(OutRole::Proof),
    6,
    b"sdcl: write fault output\n",
);

const MAKE_JOURNAL: Calls = (
    CallKind::Create(OutRole::Journal),
    4,
    b"sdcl: open fault journal\n",
);

const WRITE_JOURNAL: Calls = (
    CallKind::Write(OutRole::Journal),
    6,
    b"sdcl: write fault journal\n",
);

const PRINT: Calls = (CallKind::Write(OutRole::Out), 6, b"sdcl: write fault out\n");

const SAID: Calls = (CallKind::Write(OutRole::Err), 2, b"");

const SAID_FAULT: Calls = (CallKind::Write(OutRole::Err), 3, b"");

const ONLY_PIGEONS: Files<'static> = Files {
    formula: Some(THREE_PIGEONS),
    proof: None,
};

const CHECKED_PIGEONS: Files<'static> = Files {
    formula: Some(THREE_PIGEONS),
    proof: Some(b"-1 0\n0\n"),
};

const TO_CONVERT: Files<'static> = Files {
    formula: Some(COPIES),
    proof: Some(COPIES_PROOF),
};

const SOLVED: Left<'static> = Left {
    code: 20,
    out: b"s UNSATISFIABLE\n",
    proof: Some(b"-1 0\n0\n"),
    ..NOTHING
};

const VERIFIED: Left<'static> = Left {
    out: b"s VERIFIED\n",
    proof: Some(b"-1 0\n0\n"),
    ..NOTHING
};

const JOURNAL: &[u8] = b"decide 1\nlearn -1 0\nback 0\nempty\n";

// Runs, with reads of so many bytes, and how many calls of each kind they make.
const RUNS: &[(Run, usize, &[(Calls, u64)])] = &[
    (
        Run {
            words: SOLVE,
            files: ONLY_PIGEONS,
            left: SOLVED,
        },
        4096,
        &[
            (OPEN_FORMULA, 1),
            (READ_FORMULA, 2),
            (MAKE_PROOF, 1),
            (WRITE_PROOF, 3),
            (PRINT, 1),
        ],
    ),
    (
        Run {
            words: &["solve", "f", "p", "--journal=j"],
            files: ONLY_PIGEONS,
            left: Left {
                journal: Some(JOURNAL),
                ..SOLVED
            },
        },
        4096,
        &[
            (MAKE_PROOF, 1),
            (WRITE_PROOF, 3),
            (MAKE_JOURNAL, 1),
            (WRITE_JOURNAL, 10),
            (PRINT, 1),
        ],
    ),
    (
        Run {
            words: &["solve", "f", "--journal=j"],
            files: ONLY_PIGEONS,
            left: Left {
                proof: None,
                journal: Some(JOURNAL),
                ..SOLVED
            },
        },
        4096,
        &[
            (MAKE_PROOF, 0),
            (WRITE_PROOF, 0),
            (MAKE_JOURNAL, 1),
            (WRITE_JOURNAL, 10),
        ],
    ),
    (
        Run {
            words: &["check", "f", "p"],
            files: CHECKED_PIGEONS,
            left: VERIFIED,
        },
        1,
        &[
            (OPEN_FORMULA, 1),
            (READ_FORMULA, 77),
            (OPEN_PROOF, 1),
            (READ_PROOF, 7),
            (PRINT, 1),
        ],
    ),
    (
        Run {
            words: &["drat", "f", "p"],
            files: CHECKED_PIGEONS,
            left: VERIFIED,
        },
        1,
        &[
            (OPEN_FORMULA, 1),
            (READ_FORMULA, 77),
            (OPEN_PROOF, 1),
            (READ_PROOF, 7),
            (PRINT, 1),
        ],
    ),
    (
        Run {
            words: CONVERT,
            files: TO_CONVERT,
            left: Left {
                out: b"c steps 2\nc lines 26\nc new 1\n",
                proof: Some(COPIES_PROOF),
                output: Some(COPIES_LINES),
                ..NOTHING
            },
        },
        4096,
        &[
            (OPEN_FORMULA, 1),
            (READ_FORMULA, 2),
            (OPEN_PROOF, 1),
            (READ_PROOF, 1),
            (MAKE_OUTPUT, 1),
            (WRITE_OUTPUT, 63),
            (PRINT, 1),
        ],
    ),
    (
        Run {
            words: DRILL,
            files: ONLY_PIGEONS,
            left: Left {
                out: TWO_HOLES,
                ..NOTHING
            },
        },
        1,
        &[
            (OPEN_FORMULA, 0),
            (OPEN_PROOF, 0),
            (READ_PROOF, 0),
            (MAKE_PROOF, 0),
            (WRITE_PROOF, 0),
            (PRINT, 1),
        ],
    ),
];

// Whether a run that is broken off leaves the proof that was there, and parts of what is made.
fn is_broken_off(ended: &Ended, run: &Run, (_, code, line): Calls) -> bool {
    let is_kept = run.files.proof.is_none() || ended.proof() == run.files.proof;
    is_kept && ended.says(code, b"", line) && ended.has_parts_of(run.left)
}

// How many calls of the kind the run makes: each fails in its turn, until none is left. None where a run is another.
fn calls_of(alloc: Global, run: &Run, most: usize, calls: Calls) -> Result<Option<u64>, Fail> {
    for nth in 1..600u64 {
        let ended = end(alloc, run.words, run.files, most, Some((calls.0, nth)))?;
        if ended.leaves(run.left) {
            return Ok(Some(nth.saturating_sub(1)));
        }
        if !is_broken_off(&ended, run, calls) {
            return Ok(None);
        }
    }
    Ok(None)
}

// Whether the run makes so many calls of each kind.
fn makes(alloc: Global, run: &Run, most: usize, table: &[(Calls, u64)]) -> Result<bool, Fail> {
    for (calls, made) in table {
        if calls_of(alloc, run, most, *calls)? != Some(*made) {
            return Ok(false);
        }
    }
    Ok(true)
}

// The first run that makes others.
fn other_calls(alloc: Global) -> Result<Option<usize>, Fail> {
    for (at, (run, most, table)) in RUNS.iter().enumerate() {
        if !makes(alloc, run, *most, table)? {
            return Ok(Some(at));
        }
    }
    Ok(None)
}

#[test]
fn each_call_fails_in_its_turn_until_none_is_left(rt: HostRuntime) -> Result<(), Fail> {
    assert_eq!(rt; other_calls(rt.alloc())?, None);
    Ok(())
}

// A solving whose call of this number fails, and the proof that it leaves.
const BROKEN_SOLVING: &[(&[&str], &[u8], Calls, u64, Option<&[u8]>)] = &[
    (SOLVE, THREE_PIGEONS, READ_FORMULA, 1, None),
    (SOLVE, THREE_PIGEONS, MAKE_PROOF, 1, None),
    (SOLVE, THREE_PIGEONS, WRITE_PROOF, 1, Some(b"")),
    (SOLVE, THREE_PIGEONS, WRITE_PROOF, 2, Some(b"-1 ")),
    (SOLVE, THREE_PIGEONS, WRITE_PROOF, 3, Some(b"-1 0\n")),
    (SOLVE, THREE_PIGEONS, PRINT, 1, Some(b"-1 0\n0\n")),
    // the journal is made behind the proof
    (
        &["solve", "f", "p", "--journal=j"],
        THREE_PIGEONS,
        MAKE_JOURNAL,
        1,
        Some(b""),
    ),
    (
        &["solve", "f", "--journal=j"],
        THREE_PIGEONS,
        MAKE_JOURNAL,
        1,
        None,
    ),
    (
        &["solve", "f", "p", "--journal=j"],
        THREE_PIGEONS,
        MAKE_PROOF,
        1,
        None,
    ),
    // a write on standard error keeps the status
    (&[], THREE_PIGEONS, SAID, 1, None),
    (SOLVE, b"p dnf 1 1\n", SAID_FAULT, 1, None),
];

// The first of them that leaves something else.
fn other_broken_solving(alloc: Global) -> Result<Option<usize>, Fail> {
    for (at, (words, formula, calls, nth, proof)) in BROKEN_SOLVING.iter().enumerate() {
        let files = Files {
            formula: Some(formula),
            proof: None,
        };
        let left = Left {
            code: calls.1,
            err: calls.2,
            proof: *proof,
            ..NOTHING
        };
        if !end(alloc, words, files, 4096, Some((calls.0, *nth)))?.leaves(left) {
            return Ok(Some(at));
        }
    }
    Ok(None)
}

#[test]
fn a_broken_solving_leaves_a_part_of_its_proof(rt: HostRuntime) -> Result<(), Fail> {
    assert_eq!(rt; other_broken_solving(rt.alloc())?, None);
    Ok(())
}

// The calls of a conversion before its output is made, and that of its counts, and whether the output is made.
const BROKEN_CONVERSION: &[(Calls, Option<&[u8]>)] = &[
    (OPEN_FORMULA, None),
    (READ_FORMULA, None),
    (OPEN_PROOF, None),
    (READ_PROOF, None),
    (MAKE_OUTPUT, None),
    (PRINT, Some(COPIES_LINES)),
];

// The first of them that leaves something else.
fn other_broken_conversion(alloc: Global) -> Result<Option<usize>, Fail> {
    for (at, (calls, output)) in BROKEN_CONVERSION.iter().enumerate() {
        let left = Left {
            code: calls.1,
            err: calls.2,
            proof: Some(COPIES_PROOF),
            output: *output,
            ..NOTHING
        };
        if !end(alloc, CONVERT, TO_CONVERT, 4096, Some((calls.0, 1)))?.leaves(left) {
            return Ok(Some(at));
        }
    }
    Ok(None)
}

#[test]
fn the_output_is_made_when_the_proof_is_judged(rt: HostRuntime) -> Result<(), Fail> {
    assert_eq!(rt; other_broken_conversion(rt.alloc())?, None);
    Ok(())
}
