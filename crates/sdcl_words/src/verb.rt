//! The commands by their names.
ghost use Rattle.std.specs.Prelude.{◌≡◌};
ghost use Rattle.sdcl_words.specs.Planning.{verb_in};

use crate::value::meant_by;

/// What a run is to do.
#[derive(Clone, Copy, Debug, PartialEq, Eq)]
pub enum Verb {
    Solve,
    Check,
    Drat,
    Convert,
    Drill,
}

/// The command that the first word names, if any.
pub fn verb_of(words: &[String]) -> Option<Verb>
    ensures { result ≡ verb_in words.now }
{
    let word = words.first()?;
    meant_by(
        &[
            ("solve", Verb::Solve),
            ("check", Verb::Check),
            ("drat", Verb::Drat),
            ("convert", Verb::Convert),
            ("drill", Verb::Drill),
        ],
        word.as_str(),
    )
}
