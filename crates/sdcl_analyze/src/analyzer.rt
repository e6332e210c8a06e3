//! Analysis of conflicts.
ghost use Rattle.std.specs.Prelude.{◌≡◌, ◌≤◌, length, vec_capacity, IfOk};
ghost use Rattle.std.specs.Borrow.{sem};
ghost use Rattle.sdcl_base.specs.declared.lit.TheConstants.{MAX_VARIABLE};
ghost use Rattle.sdcl_prop.specs.Seeing.{FitsOver, IsFalsified};
ghost use Rattle.sdcl_analyze.specs.Learning.{LearnsFrom, ListsFrom};
ghost use Rattle.sdcl_analyze.specs.Lending.{KeepsVariables};

use crate::measures::{back_level, glue, note};
use crate::minimising::{Frame, minimise};
use crate::number_set::NumberSet;
use crate::walk::first_point;
use sdcl_base::{ClauseId, Lit, NoMemory};
use sdcl_store::Clauses;
use sdcl_trail::Trail;
use std::alloc::Global;
use std::marker::Model;

/// What a conflict teaches. The clause is false under the trail, its first literal alone at the
/// last level; the order of the others is left open, and so is that of `seen`.
#[derive(Drop)]
pub struct Learned<'a> {
    pub clause: &'a [Lit],
    /// The greatest level of the other literals, or 0.
    pub back_level: u32,
    /// The number of levels on which the clause's literals stand.
    pub glue: u32,
    /// The variables that were resolved on or kept.
    pub seen: &'a [u32],
}

/// The working marks of an analysis, which one analyzer keeps for all of them, since a conflict
/// mostly touches few of the variables.
#[derive(Drop)]
pub struct Analyzer {
    variables: u32,
    // the variables of the clause so far, also of those resolved on
    marked: NumberSet,
    // its literals below the last level
    lower: Vec<Lit>,
    // the variables that the search for covered literals entered, and those that it found covered
    entered: NumberSet,
    covered: NumberSet,
    stack: Vec<Frame>,
    // the levels of the clause's literals
    levels: NumberSet,
    // the last result
    clause: Vec<Lit>,
    back_level: u32,
    glue: u32,
    seen: NumberSet,
}

impl Model for Analyzer {
    ghost use Rattle.std.specs.Prelude.{◌≡◌};
    ghost use Rattle.sdcl_analyze.specs.Analyzers.{Analyzed, analyzed_code, IsRoomy};

    ghost Value = { Analyzed };

    ghost coded = { analyzed_code };

    ghost view = { λ a.
        record {
          variables = a.variables;
          clause = a.clause.items;
          back = a.back_level;
          glue = a.glue;
          seen = a.seen.members;
        } };

    ghost invariant = { λ a. IsRoomy a.variables a.marked a.entered a.covered a.seen a.levels
        a.lower a.clause a.stack };
}

impl Analyzer {
    /// The marks for the variables from 1 to a number. All memory is taken here.
    pub fn new(alloc: Global, variables: u32) -> Result<Analyzer, NoMemory>
        requires { variables ≤ MAX_VARIABLE }
        ensures { IfOk result (λ a. a.variables ≡ variables) }
    {
        let room = variables as usize + 1;
        Ok(Analyzer {
            variables,
            marked: NumberSet::new(alloc, room)?,
            lower: lits_for(alloc, room)?,
            entered: NumberSet::new(alloc, room)?,
            covered: NumberSet::new(alloc, room)?,
            stack: frames_for(alloc, room)?,
            levels: NumberSet::new(alloc, room + 1)?,
            clause: lits_for(alloc, room + 1)?,
            back_level: 0,
            glue: 0,
            seen: NumberSet::new(alloc, room)?,
        })
    }

    /// The clause of the first unique implication point of a clause that is false under the trail,
    /// without the literals that the others imply. It takes time in what it visits: the last level
    /// back to that point, and the reasons that it resolves on or searches. It is lent until the
    /// next call.
    pub fn learn<'a, C: Clauses>(
        &'a mut self,
        trail: &Trail,
        clauses: &C,
        conflict: ClauseId,
    ) -> Learned<'a>
        requires level { 1 ≤ length trail.now.starts }
        requires within { trail.now.variables ≤ self.old.variables }
        requires fits { FitsOver (C.clauses clauses.now) trail.now }
        requires conflict { IsFalsified (C.clauses clauses.now) trail.now.lits conflict }
        ensures* writes_back { sem 𝓛 (KeepsVariables self.entry) }
        ensures learned { LearnsFrom (C.clauses clauses.now) trail.now conflict
            result.clause.now result.back_level result.glue }
        ensures seen { ListsFrom (C.clauses clauses.now) trail.now conflict
            result.clause.now result.seen.now }
    {
        self.analyse(trail, clauses, conflict);
        self.learned()
    }

    // The analysis, with its result left in the fields.
    fn analyse<C: Clauses>(&mut self, trail: &Trail, clauses: &C, conflict: ClauseId)
        requires level { 1 ≤ length trail.now.starts }
        requires within { trail.now.variables ≤ self.old.variables }
        requires fits { FitsOver (C.clauses clauses.now) trail.now }
        requires conflict { IsFalsified (C.clauses clauses.now) trail.now.lits conflict }
        ensures variables { self.new.variables ≡ self.old.variables }
        ensures learned { LearnsFrom (C.clauses clauses.now) trail.now conflict
            self.new.clause self.new.back self.new.glue }
        ensures seen { ListsFrom (C.clauses clauses.now) trail.now conflict
            self.new.clause self.new.seen }
    {
        let _level = trail.level();
        self.marked.clear();
        self.entered.clear();
        self.covered.clear();
        self.levels.clear();
        self.seen.clear();
        self.lower.clear();
        self.stack.clear();
        self.clause.clear();
        let point = first_point(
            trail,
            clauses,
            conflict,
            &mut self.marked,
            &mut self.seen,
            &mut self.lower,
        );
        if self.clause.push(point).is_err() {
            unreachable!()
        }
        let _most = self.marked.members();
        minimise(
            trail,
            clauses,
            self.lower.as_slice(),
            &self.marked,
            &mut self.entered,
            &mut self.covered,
            &mut self.stack,
            &mut self.clause,
        );
        note(self.clause.as_slice(), &mut self.seen);
        let _noted = self.seen.members();
        self.back_level = back_level(trail, self.clause.as_slice());
        self.glue = glue(trail, self.clause.as_slice(), &mut self.levels);
    }

    // The result.
    fn learned(&self) -> Learned<'_>
        ensures clause { result.clause.now ≡ self.now.clause }
        ensures back { result.back_level ≡ self.now.back }
        ensures glue { result.glue ≡ self.now.glue }
        ensures seen { result.seen.now ≡ self.now.seen }
    {
        Learned {
            clause: self.clause.as_slice(),
            back_level: self.back_level,
            glue: self.glue,
            seen: self.seen.members(),
        }
    }
}

// No literals, with room for so many.
fn lits_for(alloc: Global, room: usize) -> Result<Vec<Lit>, NoMemory>
    ensures { IfOk result (λ v. room ≤ vec_capacity v) }
{
    Vec::with_capacity(alloc, room).map_err(|_| NoMemory)
}

// No frames, with room for so many.
fn frames_for(alloc: Global, room: usize) -> Result<Vec<Frame>, NoMemory>
    ensures { IfOk result (λ v. room ≤ vec_capacity v) }
{
    Vec::with_capacity(alloc, room).map_err(|_| NoMemory)
}
