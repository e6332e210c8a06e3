//! A sink over a lent world that writes a run.
ghost use Rattle.std.specs.Prelude.{◌≡◌, IsTrue, None, refl};
ghost use Rattle.std.proofs.Common.{◌∙◌};
ghost use Rattle.sdcl_io.specs.declared.world.OutRole.TheVariants as output;
ghost use Rattle.sdcl_journal.specs.RunOutputs.{fault_at as fault_of};

use crate::event::Event;
use crate::sink::JournalOut;
use crate::writing::write_event;
use sdcl_base::Lit;
use sdcl_io::{Failed, OutRole, ProofOut, World};
use sdcl_proof::{write_add, write_remove};

/// Writes the steps of a run as lines into the output `Proof` of a lent world, and its events into
/// `Journal`, each where that is asked for.
#[derive(Drop)]
pub struct RunFiles<'w, W: World> {
    world: &'w mut W,
    proof: bool,
    journal: bool,
    failed: Option<OutRole>,
}

impl<'w, W: World> RunFiles<'w, W> {
    /// A sink that writes a proof, a journal, both or neither.
    pub fn new(world: &'w mut W, proof: bool, journal: bool) -> RunFiles<'w, W>
        requires proof { IsTrue proof → IsTrue ((W.seen world.old).is_there output.Proof) }
        requires journal { IsTrue journal → IsTrue ((W.seen world.old).is_there output.Journal) }
        ensures same_reference { result.world.ghost_name ≡ world.entry.ghost_name }
        ensures same_world { result.world.now ≡ world.old }
        ensures writes { (result.proof ≡ proof) × (result.journal ≡ journal) }
        ensures unfailed { result.failed ≡ None }
    {
        RunFiles {
            world,
            proof,
            journal,
            failed: None,
        }
    }

    /// The output whose write failed first.
    pub fn failed(&self) -> Option<OutRole>
        ensures { result ≡ self.now.failed }
    {
        self.failed
    }
}

impl<W: World> ProofOut for RunFiles<'_, W> {
    ghost use Rattle.sdcl_proof.specs.Files.{HoldsSteps};
    ghost use Rattle.sdcl_journal.specs.RunOutputs.{IsRunOutput, RunOnward, FailsAt, faults_of, journal_aside};
    ghost use Rattle.sdcl_journal.specs.Onward.{run_itself, run_on, fails_itself, fails_on};

    ghost tells = { λ s steps torn. IsTrue s.proof
        → HoldsSteps output.Proof (W.seen s.world.now) steps torn };

    ghost ready = { λ s. (s.failed ≡ None)
        × (IsTrue s.proof → IsTrue ((W.seen s.world.now).is_there output.Proof))
        × (IsTrue s.journal → IsTrue ((W.seen s.world.now).is_there output.Journal)) };

    ghost faults = { λ s. faults_of s.failed };

    ghost aside = { λ s. journal_aside s.journal (W.seen s.world.now).tells
        ((W.seen s.world.now).held output.Journal) };

    ghost follows = { λ s t. (t.world.ghost_name ≡ s.world.ghost_name)
        × (t.proof ≡ s.proof) × (t.journal ≡ s.journal)
        × RunOnward (IsRunOutput s.proof s.journal) (W.seen s.world.now) (W.seen t.world.now)
        × FailsAt (IsRunOutput s.proof s.journal) (W.seen s.world.now) (W.seen t.world.now)
        s.failed t.failed
        × W.follows s.world.now t.world.now };

    ghost follows_itself = { λ s. (
      refl,
      refl,
      refl,
      run_itself (IsRunOutput s.proof s.journal) (W.seen s.world.now),
      fails_itself (IsRunOutput s.proof s.journal) (W.seen s.world.now) s.failed,
      W.follows_itself s.world.now,
    ) };

    ghost follows_on = { λ s t u h k. (
      k.0 ∙ h.0,
      k.1 ∙ h.1,
      k.2 ∙ h.2,
      run_on (IsRunOutput s.proof s.journal) (W.seen s.world.now) (W.seen t.world.now)
          (W.seen u.world.now) h.3 (rw (h.1, h.2) at k.3),
      fails_on (IsRunOutput s.proof s.journal) (W.seen s.world.now) (W.seen t.world.now)
          (W.seen u.world.now) s.failed t.failed u.failed h.3.only.later (rw (h.1, h.2) at k.3).only.later
          h.4 (rw (h.1, h.2) at k.4),
      W.follows_on s.world.now t.world.now u.world.now h.5 k.5,
    ) };

    fn add(&mut self, clause: &[Lit], witness: &[Lit]) -> Result<(), Failed> {
        if !self.proof {
            return Ok(());
        }
        match write_add(self.world, OutRole::Proof, clause, witness) {
            Ok(()) => Ok(()),
            Err(failed) => {
                self.failed = fault_at(OutRole::Proof, failed);
                Err(failed)
            }
        }
    }

    fn remove(&mut self, clause: &[Lit]) -> Result<(), Failed> {
        if !self.proof {
            return Ok(());
        }
        match write_remove(self.world, OutRole::Proof, clause) {
            Ok(()) => Ok(()),
            Err(failed) => {
                self.failed = fault_at(OutRole::Proof, failed);
                Err(failed)
            }
        }
    }
}

impl<W: World> JournalOut for RunFiles<'_, W> {
    ghost use Rattle.sdcl_journal.specs.RunOutputs.{HoldsEvents};
    ghost use Rattle.sdcl_journal.specs.Onward.{told_aside};

    ghost tells_events = { λ s events torn. IsTrue s.journal
        → HoldsEvents output.Journal (W.seen s.world.now) events torn };

    ghost by_aside = { λ s t e taken torn h. told_aside s.journal t.journal (W.seen s.world.now)
        (W.seen t.world.now) e taken torn h };

    fn event(&mut self, event: &Event) -> Result<(), Failed> {
        if !self.journal {
            return Ok(());
        }
        match write_event(self.world, OutRole::Journal, event) {
            Ok(()) => Ok(()),
            Err(failed) => {
                self.failed = fault_at(OutRole::Journal, failed);
                Err(failed)
            }
        }
    }
}

// The output, where its write failed by a fault of the world.
fn fault_at(role: OutRole, failed: Failed) -> Option<OutRole>
    ensures { result ≡ fault_of role failed }
{
    match failed {
        Failed::Fault => Some(role),
        Failed::NoMemory => None,
    }
}
