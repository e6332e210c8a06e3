//! Whole proofs over a world in memory, with verdicts that were worked out by hand.
ghost use Rattle.std.specs.Prelude.{IfOk};
ghost use Rattle.sdcl_rup.specs.Held.{Within};

use crate::check_drat;
use sdcl_base::Lit;
use sdcl_io::{InRole, MemoryWorld, Reader, World};
use sdcl_prcheck::Verdict;
use sdcl_proof::{Dialect, ProofError, ProofFault, ProofKind, StepReader};
use sdcl_rup::Database;
use std::alloc::Global;
use std::test::Fail;

const LIMIT: u64 = 1000;

const VERIFIED: Result<Verdict, ProofError> = Ok(Verdict::Verified);

// The literals of the numbers, all of variables that the database covers.
fn literals(alloc: Global, database: &Database, numbers: &[i64]) -> Result<Vec<Lit>, Fail>
    ensures { IfOk result (λ lits. Within database.now.covered lits.items) }
{
    let mut lits = Vec::new(alloc);
    for number in numbers {
        let l = Lit::from_number(*number).ok_or("no literal")?;
        if l.var() > database.covered() {
            return Err(Fail::from("a variable that is not covered"));
        }
        lits.push(l)?;
    }
    Ok(lits)
}

// The verdict on a proof in a file, over the clauses.
fn judged(
    alloc: Global,
    lists: &[[i64; 2]],
    proof: &[u8],
) -> Result<Result<Verdict, ProofError>, Fail> {
    let mut database = Database::new(alloc)?;
    database.cover(2)?;
    for numbers in lists {
        let lits = literals(alloc, &database, numbers)?;
        database.add(lits.as_slice())?;
    }
    let mut world = MemoryWorld::new(alloc);
    world.put_file("p", proof)?;
    world.open_input(InRole::Proof, "p")?;
    let reader = Reader::new(&mut world, InRole::Proof, LIMIT);
    let mut steps = StepReader::new(reader, Dialect::Drat)?;
    Ok(check_drat(alloc, &mut steps, &mut database))
}

// The four clauses over two variables.
const SQUARE: [[i64; 2]; 4] = [[1, 2], [1, -2], [-1, 2], [-1, -2]];

const WORD_FAULT: ProofFault = ProofFault {
    offset: 2,
    kind: ProofKind::BadLiteral,
};

#[test]
fn repeats_are_kept_once_and_the_first_literal_is_the_pivot(rt: HostRuntime) -> Result<(), Fail> {
    for (proof, wanted) in [
        // a deletion of a clause that is not there
        (
            b"d 1 1 0\n".as_slice(),
            Ok(Verdict::NotVerified { step: 2 }),
        ),
        // the clause of -1 and 2: in the dialect PR a unit with a witness, which is valid
        (
            b"-1 -1 2 0\n".as_slice(),
            Ok(Verdict::NotVerified { step: 1 }),
        ),
        (
            b"1 2 1 0\n".as_slice(),
            Ok(Verdict::NotVerified { step: 2 }),
        ),
        // no clause has the complement of 3; one has that of -1
        (b"3 -1 0\n".as_slice(), Ok(Verdict::NotVerified { step: 2 })),
        (b"-1 3 0\n".as_slice(), Ok(Verdict::NotVerified { step: 1 })),
        (b"1 x 0\n".as_slice(), Err(ProofError::Grammar(WORD_FAULT))),
    ] {
        assert_eq!(rt; judged(rt.alloc(), &[[1, 2]], proof)?, wanted);
    }
    Ok(())
}

#[test]
fn deletions_are_honoured(rt: HostRuntime) -> Result<(), Fail> {
    for (proof, wanted) in [
        (b"2 2 0\n0\n".as_slice(), VERIFIED),
        (b"d 1 0\n2 0\n".as_slice(), VERIFIED),
        (
            b"d 2 1 2 0\n2 0\n".as_slice(),
            Ok(Verdict::NotVerified { step: 2 }),
        ),
        // the block that stands for a unit with a witness
        (
            b"-3 2 0\n-3 -2 0\n3 -1 0\n-1 -3 0\n-1 0\nd -3 2 0\nd -3 -2 0\nd 3 -1 0\nd -1 -3 0\n0\n".as_slice(),
            VERIFIED,
        ),
    ] {
        assert_eq!(rt; judged(rt.alloc(), &SQUARE, proof)?, wanted);
    }
    Ok(())
}
