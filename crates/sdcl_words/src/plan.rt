//! What the words of a command line ask for.
use crate::name::Name;
use sdcl_outer::Options;
use std::alloc::AllocError;
use thiserror::Error;

/// The greatest number of holes that `drill` takes.
pub const MOST_DRILLED: u32 = 32;

/// What a run is to do, and to which files.
#[derive(Drop)]
pub enum Plan {
    /// Solve the formula, and write the proof and the journal, each where it is named.
    Solve {
        formula: Name,
        proof: Option<Name>,
        journal: Option<Name>,
        options: Options,
    },
    /// Check the proof of the formula.
    Check {
        formula: Name,
        proof: Name,
    },
    /// Check the DRAT proof of the formula.
    Drat {
        formula: Name,
        proof: Name,
    },
    /// Convert the proof of the formula, and write the DRAT proof.
    Convert {
        formula: Name,
        proof: Name,
        out: Name,
    },
    /// Make, check and convert the proof that one pigeon more than there are holes does not fit.
    Drill {
        holes: u32,
    },
}

/// Why there is no plan.
#[derive(Clone, Copy, Debug, Drop, PartialEq, Eq, Error)]
pub enum PlanError {
    /// The words make none.
    #[error("usage")]
    Usage,
    /// Memory was not found.
    #[error("no memory")]
    NoMemory,
}

impl From<AllocError> for PlanError {
    ghost use Rattle.std.specs.Prelude.{◌≡◌};
    ghost use Rattle.sdcl_words.specs.declared.plan.PlanError.TheVariants.{NoMemory};

    ghost from_gives = { λ e p. p ≡ NoMemory };

    fn from(_: AllocError) -> Self {
        PlanError::NoMemory
    }
}
