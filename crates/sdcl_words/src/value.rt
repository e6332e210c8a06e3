//! What the arguments of a command stand for.
ghost use Rattle.std.specs.Prelude.{◌≡◌, ◌≤◌, IfOk, IfSome, IsErrOf, Some, None, map, option_map};
ghost use Rattle.clap.specs.Words.{first_of, rows_of, found_of};
ghost use Rattle.sdcl_words.specs.Values as spec;

use crate::name::Name;
use crate::plan::PlanError;
use clap::ArgMatches;
use sdcl_io::number;
use std::alloc::Global;

#[tactic(auto, using(crate::proofs::Rows::first_row))]
// The text of an argument, where it is given.
fn text_at<'a>(matches: &ArgMatches<'a>, id: &str) -> Option<&'a str>
    ensures { option_map (λ s. s.now) result ≡ first_of id.now (rows_of (found_of matches.now)) }
{
    matches.get_str(id)
}

/// The name that an argument gives, if it does.
pub fn name_at(alloc: Global, matches: &ArgMatches<'_>, id: &str) -> Result<Option<Name>, PlanError>
    ensures value { IfOk result (λ name. name ≡ first_of id.now (rows_of (found_of matches.now))) }
    ensures memory { IsErrOf result PlanError.Usage → ⊥ }
{
    match text_at(matches, id) {
        None => Ok(None),
        Some(text) => Ok(Some(Name::new(alloc, text)?)),
    }
}

/// The name that an argument gives, which has to be there.
pub fn wanted_name(alloc: Global, matches: &ArgMatches<'_>, id: &str) -> Result<Name, PlanError>
    ensures value { IfOk result (λ name.
        first_of id.now (rows_of (found_of matches.now)) ≡ Some name) }
    ensures none { IsErrOf result PlanError.Usage
        → first_of id.now (rows_of (found_of matches.now)) ≡ None }
{
    match name_at(alloc, matches, id)? {
        Some(name) => Ok(name),
        None => Err(PlanError::Usage),
    }
}

/// The number of 1 to 10 decimal digits that a text is, within a range.
pub fn number_in(text: &str, low: u64, high: u64) -> Option<u64>
    ensures value { result ≡ spec.number_in low high text.now }
    ensures low { IfSome result (λ n. low ≤ n) }
    ensures high { IfSome result (λ n. n ≤ high) }
{
    match number(text.as_bytes()) {
        Some(n) if low <= n && n <= high => Some(n),
        _ => None,
    }
}

/// The number within a range that an argument gives, which has to be there.
pub fn wanted_number(matches: &ArgMatches<'_>, id: &str, low: u64, high: u64) -> Option<u64>
    ensures value { result ≡ spec.wanted_number id.now low high (rows_of (found_of matches.now)) }
    ensures low { IfSome result (λ n. low ≤ n) }
    ensures high { IfSome result (λ n. n ≤ high) }
{
    number_in(text_at(matches, id)?, low, high)
}

/// The number within a range that an argument gives, and else its default.
pub fn number_option(
    matches: &ArgMatches<'_>,
    id: &str,
    low: u64,
    high: u64,
    standard: u64,
) -> Option<u64>
    requires { standard ≤ high }
    ensures value { result ≡ spec.number_option id.now low high standard
        (rows_of (found_of matches.now)) }
    ensures high { IfSome result (λ n. n ≤ high) }
{
    match text_at(matches, id) {
        None => Some(standard),
        Some(text) => number_in(text, low, high),
    }
}

/// What a text stands for, as one of these words.
pub fn meant_by<T: Copy>(words: &[(&str, T)], text: &str) -> Option<T>
    ensures { result ≡ spec.meant_by (map (λ row. (row.0.now, row.1)) words.now) text.now }
{
    for (word, value) in words {
        if *word == text {
            return Some(*value);
        }
    }
    None
}

/// What the word stands for that an argument gives, and else its default.
pub fn word_option<T: Copy>(
    matches: &ArgMatches<'_>,
    id: &str,
    words: &[(&str, T)],
    standard: T,
) -> Option<T>
    ensures { result ≡ spec.word_option id.now (map (λ row. (row.0.now, row.1)) words.now) standard
        (rows_of (found_of matches.now)) }
{
    match text_at(matches, id) {
        None => Some(standard),
        Some(text) => meant_by(words, text),
    }
}
