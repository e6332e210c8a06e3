//! The lines of events.
ghost use Rattle.std.specs.Prelude.{◌++◌, [], ◌∷◌, IsTrue, codes, decimal};
ghost use Rattle.sdcl_io.specs.World.{WritesAll};
ghost use Rattle.sdcl_proof.specs.Lines.{literal_text, literals_text};
ghost use Rattle.sdcl_journal.specs.Events.{event_of};
ghost use Rattle.sdcl_journal.specs.Lines.{event_line};

use crate::event::Event;
use itoa::Buffer;
use sdcl_base::Lit;
use sdcl_io::{Failed, OutRole, World, write_all};
use sdcl_proof::write_literals;

// The word that closes a clause, and the line's end.
const CLOSING: &[u8] = b"0\n";

/// Writes the line of the event, or a proper prefix of it with a cause.
pub fn write_event<W: World>(world: &mut W, role: OutRole, event: &Event) -> Result<(), Failed>
    requires { IsTrue ((W.seen world.old).is_there role) }
    ensures writes { WritesAll role (W.seen world.old) (W.seen world.new) result
        (event_line (event_of event.now)) }
    ensures follows { W.follows world.old world.new }
{
    match event {
        Event::Decide(l) => write_decision(world, role, *l),
        Event::NoWitness => write_all(world, role, b"no-witness\n"),
        Event::InnerSpent(variables) => write_numbered(world, role, b"inner-spent ", *variables),
        Event::Learn(clause) => write_clause(world, role, b"learn ", clause, &[]),
        Event::LearnWitness(clause, witness) => {
            write_clause(world, role, b"learn-witness ", clause, witness)
        }
        Event::Back(level) => write_numbered(world, role, b"back ", *level),
        Event::Forget(clause) => write_clause(world, role, b"forget ", clause, &[]),
        Event::Empty => write_all(world, role, b"empty\n"),
        Event::Model => write_all(world, role, b"model\n"),
        Event::Unknown => write_all(world, role, b"unknown\n"),
    }
}

// Writes the line of a decision.
fn write_decision<W: World>(world: &mut W, role: OutRole, l: Lit) -> Result<(), Failed>
    requires { IsTrue ((W.seen world.old).is_there role) }
    ensures writes { WritesAll role (W.seen world.old) (W.seen world.new) result
        (codes "decide " ++ (literal_text l ++ codes "\n")) }
    ensures follows { W.follows world.old world.new }
{
    let mut buffer = Buffer::new();
    write_all(world, role, b"decide ")?;
    write_all(world, role, buffer.format(l.number()).as_bytes())?;
    write_all(world, role, b"\n")
}

// Writes a word and a number as a line.
fn write_numbered<W: World>(
    world: &mut W,
    role: OutRole,
    word: &[u8],
    number: u32,
) -> Result<(), Failed>
    requires { IsTrue ((W.seen world.old).is_there role) }
    ensures writes { WritesAll role (W.seen world.old) (W.seen world.new) result
        (word.now ++ (decimal number ++ codes "\n")) }
    ensures follows { W.follows world.old world.new }
{
    let mut buffer = Buffer::new();
    write_all(world, role, word)?;
    write_all(world, role, buffer.format(number).as_bytes())?;
    write_all(world, role, b"\n")
}

// Writes a word, a clause and a witness as a line.
fn write_clause<W: World>(
    world: &mut W,
    role: OutRole,
    word: &[u8],
    clause: &[Lit],
    witness: &[Lit],
) -> Result<(), Failed>
    requires { IsTrue ((W.seen world.old).is_there role) }
    ensures writes { WritesAll role (W.seen world.old) (W.seen world.new) result
        (word.now ++ (literals_text clause.now ++ (literals_text witness.now ++ codes "0\n"))) }
    ensures follows { W.follows world.old world.new }
{
    write_all(world, role, word)?;
    write_literals(world, role, clause)?;
    write_literals(world, role, witness)?;
    write_all(world, role, CLOSING)
}
