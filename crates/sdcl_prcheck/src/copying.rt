//! The clauses of a formula, for a checker.
ghost use Rattle.std.specs.Prelude.{◌≡◌, ◌≤◌, ◌<◌, IfOk, OnOk, length};
ghost use Rattle.sdcl_base.specs.Sets.{WithinVariables};
ghost use Rattle.sdcl_base.specs.declared.lit.TheConstants.{MAX_VARIABLE};
ghost use Rattle.sdcl_store.specs.Stores.{clauses_in};
ghost use Rattle.sdcl_prcheck.specs.Copying.{Copies};

use sdcl_base::{ClauseId, NoMemory};
use sdcl_rup::Database;
use sdcl_store::{Clauses, Store};
use std::alloc::Global;

/// A database with the clauses of the formula, whose variables are from 1 to `variables`.
pub fn database_of(alloc: Global, formula: &Store, variables: u32) -> Result<Database, NoMemory>
    requires few { variables ≤ MAX_VARIABLE }
    requires within { WithinVariables variables (clauses_in formula.now) }
    ensures { IfOk result (λ database. database.clauses ≡ clauses_in formula.now) }
{
    let mut database = Database::new(alloc)?;
    database.cover(variables)?;
    // the clauses below `id` are copied, and their variables covered
    for id in 0..formula.slots() {
        copy(&mut database, formula, ClauseId(id))?;
    }
    Ok(database)
}

// Adds the id's clause, if there is one.
fn copy(database: &mut Database, formula: &Store, id: ClauseId) -> Result<(), NoMemory>
    requires within { WithinVariables database.old.covered (clauses_in formula.now) }
    requires there { id.0 < length formula.now.slots }
    ensures { OnOk result (Copies formula.now.slots database.old database.new id.0) }
{
    if formula.alive(id) {
        database.add(formula.literals(id))
    } else {
        Ok(())
    }
}
