//! The job of each subcommand.

ghost use Rattle.std.specs.Prelude.{◌≡◌, List, ℕ, IfErr, IfOk, Some, codes, string_bytes};
ghost use Rattle.clap.specs.Words.{Row, first_of, found_of, rows_of, subcommand_rows_of};
ghost use Rattle.sok_words.specs.Forms.{Answers, Form, id_value};
ghost use Rattle.sok_words.specs.Rows.{HasId, HasNumber, HasValues};

use crate::job::{Job, JobRefused};
use crate::values::{
    flag_of, id_of, missing, number_of, option_of, optional_id_of, optional_number_of, text_of,
};
use clap::ArgMatches;
use std::alloc::Global;

/// Returns the job of the subcommand that was given.
pub(crate) fn job_in(alloc: Global, matches: &ArgMatches<'_>) -> Result<Job, JobRefused>
    ensures { (form : Form) (name : List ℕ) (rows : List Row)
        → subcommand_rows_of matches.now ≡ Some (name, rows) → HasValues form name rows
        → Answers form result }
{
    let Some((name, values)) = matches.subcommand() else {
        return Err(missing(alloc));
    };
    job_of(alloc, name, values)
}

/// Returns the job of the subcommand with this name.
fn job_of(alloc: Global, name: &str, values: &ArgMatches<'_>) -> Result<Job, JobRefused>
    ensures { (form : Form) → HasValues form name.now (rows_of (found_of values.now)) → Answers form result }
{
    match name {
        "list" => Ok(Job::List(text_of(alloc, values, "FILE")?)),
        "replay" => replay_of(alloc, values),
        "draw" => draw_of(alloc, values),
        "solve" => solve_of(alloc, values),
        "check" => check_of(alloc, values),
        "add" => add_of(alloc, values),
        "offer" => offer_of(alloc, values),
        "offers" => offers_of(alloc, values),
        "prove" => prove_of(alloc, values),
        "settle" => settle_of(alloc, values),
        "show" => show_of(alloc, values),
        "export" => export_of(alloc, values),
        _ => Err(missing(alloc)),
    }
}

/// Reads the job of `replay`.
fn replay_of(alloc: Global, values: &ArgMatches<'_>) -> Result<Job, JobRefused>
    ensures { (form : Form) → HasValues form (codes "replay") (rows_of (found_of values.now))
        → Answers form result }
{
    let (file, number) = level_of(alloc, values)?;
    let text = text_of(alloc, values, "TEXT")?;
    Ok(Job::Replay(file, number, text))
}

/// Reads the job of `draw`.
fn draw_of(alloc: Global, values: &ArgMatches<'_>) -> Result<Job, JobRefused>
    ensures { (form : Form) → HasValues form (codes "draw") (rows_of (found_of values.now))
        → Answers form result }
{
    let (file, number) = level_of(alloc, values)?;
    let text = option_of(alloc, values, "TEXT")?;
    Ok(Job::Draw(file, number, text.unwrap_or(String::new(alloc))))
}

/// Reads the job of `solve`.
fn solve_of(alloc: Global, values: &ArgMatches<'_>) -> Result<Job, JobRefused>
    ensures { (form : Form) → HasValues form (codes "solve") (rows_of (found_of values.now))
        → Answers form result }
{
    let (file, number) = level_of(alloc, values)?;
    let below = optional_number_of(values, "below");
    let limit = number_of(alloc, values, "limit")?;
    let bound = flag_of(values, "bound");
    let path = option_of(alloc, values, "cert")?;
    Ok(Job::Solve(file, number, below, limit, bound, path))
}

/// Reads the job of `check`.
fn check_of(alloc: Global, values: &ArgMatches<'_>) -> Result<Job, JobRefused>
    ensures { (form : Form) → HasValues form (codes "check") (rows_of (found_of values.now))
        → Answers form result }
{
    let (file, number) = level_of(alloc, values)?;
    let cert = text_of(alloc, values, "CERT")?;
    Ok(Job::Check(file, number, cert))
}

/// Reads the job of `add`.
fn add_of(alloc: Global, values: &ArgMatches<'_>) -> Result<Job, JobRefused>
    ensures { (form : Form) → HasValues form (codes "add") (rows_of (found_of values.now))
        → Answers form result }
{
    let db = text_of(alloc, values, "DB")?;
    let file = text_of(alloc, values, "FILE")?;
    Ok(Job::Add(db, file))
}

/// Reads the job of `offer`.
fn offer_of(alloc: Global, values: &ArgMatches<'_>) -> Result<Job, JobRefused>
    ensures { (form : Form) → HasValues form (codes "offer") (rows_of (found_of values.now))
        → Answers form result }
{
    let (db, id) = entry_of(alloc, values)?;
    let text = text_of(alloc, values, "TEXT")?;
    Ok(Job::Offer(db, id, text))
}

/// Reads the job of `offers`.
fn offers_of(alloc: Global, values: &ArgMatches<'_>) -> Result<Job, JobRefused>
    ensures { (form : Form) → HasValues form (codes "offers") (rows_of (found_of values.now))
        → Answers form result }
{
    let db = text_of(alloc, values, "DB")?;
    let file = text_of(alloc, values, "FILE")?;
    Ok(Job::Offers(db, file))
}

/// Reads the job of `prove`.
fn prove_of(alloc: Global, values: &ArgMatches<'_>) -> Result<Job, JobRefused>
    ensures { (form : Form) → HasValues form (codes "prove") (rows_of (found_of values.now))
        → Answers form result }
{
    let (db, id) = entry_of(alloc, values)?;
    let cert = text_of(alloc, values, "CERT")?;
    Ok(Job::Prove(db, id, cert))
}

/// Reads the job of `settle`.
fn settle_of(alloc: Global, values: &ArgMatches<'_>) -> Result<Job, JobRefused>
    ensures { (form : Form) → HasValues form (codes "settle") (rows_of (found_of values.now))
        → Answers form result }
{
    let db = text_of(alloc, values, "DB")?;
    let limit = number_of(alloc, values, "limit")?;
    let from = id_of(alloc, values, "from")?;
    let to = optional_id_of(values, "to").unwrap_or(i64::MAX);
    let folder = option_of(alloc, values, "certs")?;
    Ok(Job::Settle(db, limit, from, to, folder))
}

/// Reads the job of `show`.
fn show_of(alloc: Global, values: &ArgMatches<'_>) -> Result<Job, JobRefused>
    ensures { (form : Form) → HasValues form (codes "show") (rows_of (found_of values.now))
        → Answers form result }
{
    let db = text_of(alloc, values, "DB")?;
    let id = optional_id_of(values, "ID");
    Ok(Job::Show(db, id))
}

/// Reads the job of `export`.
fn export_of(alloc: Global, values: &ArgMatches<'_>) -> Result<Job, JobRefused>
    ensures { (form : Form) → HasValues form (codes "export") (rows_of (found_of values.now))
        → Answers form result }
{
    let db = text_of(alloc, values, "DB")?;
    let solutions = flag_of(values, "solutions");
    Ok(Job::Export(db, solutions))
}

/// Reads the path of a collection and the number of a level in it.
fn level_of(alloc: Global, values: &ArgMatches<'_>) -> Result<(String, u32), JobRefused>
    ensures file { (file : List ℕ) → first_of (codes "FILE") (rows_of (found_of values.now)) ≡ Some file
        → IfOk result (λ level. string_bytes level.0 ≡ file) }
    ensures number { (digits : List ℕ) (number : ℕ)
        → HasNumber (rows_of (found_of values.now)) (codes "N") digits number
        → IfOk result (λ level. level.1 ≡ number) }
    ensures memory { (file digits : List ℕ) (number : ℕ)
        → first_of (codes "FILE") (rows_of (found_of values.now)) ≡ Some file
        → HasNumber (rows_of (found_of values.now)) (codes "N") digits number
        → IfErr result (λ e. e.status ≡ 6) }
{
    let file = text_of(alloc, values, "FILE")?;
    let number = number_of(alloc, values, "N")?;
    Ok((file, number))
}

/// Reads the path of a book and the id of a level in it.
fn entry_of(alloc: Global, values: &ArgMatches<'_>) -> Result<(String, i64), JobRefused>
    ensures db { (db : List ℕ) → first_of (codes "DB") (rows_of (found_of values.now)) ≡ Some db
        → IfOk result (λ entry. string_bytes entry.0 ≡ db) }
    ensures id { (digits : List ℕ) → HasId (rows_of (found_of values.now)) (codes "ID") digits
        → IfOk result (λ entry. entry.1 ≡ id_value digits) }
    ensures memory { (db digits : List ℕ)
        → first_of (codes "DB") (rows_of (found_of values.now)) ≡ Some db
        → HasId (rows_of (found_of values.now)) (codes "ID") digits
        → IfErr result (λ e. e.status ≡ 6) }
{
    let db = text_of(alloc, values, "DB")?;
    let id = id_of(alloc, values, "ID")?;
    Ok((db, id))
}
