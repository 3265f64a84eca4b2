//! The values that were given.

ghost use Rattle.std.specs.Prelude.{◌≡◌, ℕ, Bool, List, Option, Some, IsOkAnd, MatchResult, option_map};
ghost use Rattle.std.specs.Prelude.{string_bytes};
ghost use Rattle.std.specs.Str.Parse.{digits_value};
ghost use Rattle.clap.specs.Words.{first_of, found_of, rows_of};
ghost use Rattle.sok_words.specs.Forms.{id_value};
ghost use Rattle.sok_words.specs.Rows.{HasFlag, HasId, HasNumber, HasOptionalId, HasPushes};

use crate::job::JobRefused;
use clap::ArgMatches;
use std::alloc::Global;

/// Returns the refusal for want of memory.
pub(crate) fn out_of_memory(alloc: Global) -> JobRefused
    ensures { result.status ≡ 6 }
{
    JobRefused {
        text: String::new(alloc),
        status: 6,
    }
}

/// Returns the refusal for a missing value. The parser refuses such words, so this is never used.
pub(crate) fn missing(alloc: Global) -> JobRefused {
    JobRefused {
        text: String::new(alloc),
        status: 2,
    }
}

/// Returns the value of this name.
pub(crate) fn text_of(
    alloc: Global,
    values: &ArgMatches<'_>,
    name: &str,
) -> Result<String, JobRefused>
    ensures { (text : List ℕ) → first_of name.now (rows_of (found_of values.now)) ≡ Some text
        → MatchResult result (λ s. string_bytes s ≡ text) (λ e. e.status ≡ 6) }
{
    match option_of(alloc, values, name)? {
        Some(text) => Ok(text),
        None => Err(missing(alloc)),
    }
}

/// Returns the value of this name, if it is given.
pub(crate) fn option_of(
    alloc: Global,
    values: &ArgMatches<'_>,
    name: &str,
) -> Result<Option<String>, JobRefused>
    ensures { (found : Option (List ℕ)) → first_of name.now (rows_of (found_of values.now)) ≡ found
        → MatchResult result (λ s. option_map (λ t. string_bytes t) s ≡ found) (λ e. e.status ≡ 6) }
{
    let Some(text) = values.get_str(name) else {
        return Ok(None);
    };
    match String::from_str(alloc, text) {
        Ok(text) => Ok(Some(text)),
        Err(_) => Err(out_of_memory(alloc)),
    }
}

/// Returns whether the flag of this name is given.
pub(crate) fn flag_of(values: &ArgMatches<'_>, name: &str) -> bool
    ensures { (flag : Bool) → HasFlag (rows_of (found_of values.now)) name.now flag → result ≡ flag }
{
    values.get_flag(name)
}

/// Returns the number of this name.
pub(crate) fn number_of(
    alloc: Global,
    values: &ArgMatches<'_>,
    name: &str,
) -> Result<u32, JobRefused>
    ensures { (digits : List ℕ) (number : ℕ)
        → HasNumber (rows_of (found_of values.now)) name.now digits number
        → IsOkAnd result (λ n. n ≡ number) }
{
    match values.get_one::<u32>(name) {
        Some(number) => Ok(number),
        None => Err(missing(alloc)),
    }
}

/// Returns the number of pushes of this name, if it is given.
pub(crate) fn optional_number_of(values: &ArgMatches<'_>, name: &str) -> Option<u32>
    ensures { (digits : Option (List ℕ))
        → HasPushes (rows_of (found_of values.now)) name.now digits
        → result ≡ option_map (λ d. digits_value 10 d) digits }
{
    match values.get_one::<u32>(name) {
        Some(number) => Some(number),
        None => None,
    }
}

/// Returns the id of this name.
pub(crate) fn id_of(alloc: Global, values: &ArgMatches<'_>, name: &str) -> Result<i64, JobRefused>
    ensures { (digits : List ℕ) → HasId (rows_of (found_of values.now)) name.now digits
        → IsOkAnd result (λ n. n ≡ id_value digits) }
{
    match optional_id_of(values, name) {
        Some(id) => Ok(id),
        None => Err(missing(alloc)),
    }
}

/// Returns the id of this name, if it is given.
pub(crate) fn optional_id_of(values: &ArgMatches<'_>, name: &str) -> Option<i64>
    ensures { (digits : Option (List ℕ))
        → HasOptionalId (rows_of (found_of values.now)) name.now digits
        → result ≡ option_map id_value digits }
{
    values.get_one::<i64>(name)
}
