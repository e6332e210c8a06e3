//! The sink of a proof alone takes events, and keeps none.
use crate::event::Event;
use crate::sink::JournalOut;
use sdcl_io::{Failed, World};
use sdcl_proof::ProofFile;

impl<W: World> JournalOut for ProofFile<'_, W> {
    ghost use Rattle.std.specs.Prelude.{⊤};

    ghost tells_events = { λ s events torn. ⊤ };

    ghost by_aside = { λ s t e taken torn h. tt };

    fn event(&mut self, _event: &Event) -> Result<(), Failed> {
        Ok(())
    }
}
