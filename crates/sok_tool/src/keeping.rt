//! Each command on a book. It opens the database as a book first, and then the file that the command
//! names. Only `add` makes a database if there is none. A command that changes nothing only
//! reads the database.

ghost use Rattle.std.specs.Prelude.{◌≡◌, Err, IfErr, IfOk, IfSome, option_map, string_bytes};
ghost use Rattle.sqlite.specs.Held.{state};
ghost use Rattle.sok_search.specs.Faults.{IsBadLimit};
ghost use Rattle.sok_engine.specs.declared.fault.ToolFault.TheVariants as tool;
ghost use Rattle.sok_files.specs.Files.{MayKeep, files_by};
ghost use Rattle.sok_store.specs.Calls.{ChangesBook, Stops};
ghost use Rattle.sok_keep.specs.Causes.{IsCausedFault};
ghost use Rattle.sok_keep.specs.Shows.{IsBookText, IsShow};
ghost use Rattle.sok_settle.specs.Settles.{SettlesSome, WritesSettling};
ghost use Rattle.sok_tool.specs.Commands.{RunsAdd, RunsOffer, RunsOffers, RunsProve, RunsSettle};
ghost use Rattle.sok_tool.specs.Commands.{RunsShowing};
ghost use Rattle.sok_tool.specs.Databases.{IsFileless, IsNeverLacking, IsTold, IsWithoutBook, OpensFound};
ghost use Rattle.sok_tool.specs.Databases.{databases_by, place};
ghost use Rattle.sok_tool.specs.Certs.{IsFolderless, keeping_of};
ghost use Rattle.sok_databases.specs.Known.{MayOpen};
ghost use Rattle.sok_databases.specs.declared.databases.Access.{Access};
ghost use Rattle.sok_databases.specs.declared.databases.Access.TheVariants as accesses;

use crate::certs::CertFolder;
use crate::watched_certs::WatchedCerts;
use sok_book::fault::BookFault;
use sok_book::text::BookText;
use sok_databases::databases::{Access, Databases};
use sok_engine::fault::ToolFault;
use sok_files::file::open;
use sok_files::folder::Folder;
use sok_files::own::Own;
use sok_keep::add::add_bytes;
use sok_keep::offer::offer_bytes;
use sok_keep::prove::prove_bytes;
use sok_keep::show::{book_bytes, show_bytes};
use sok_settle::certs::NoCerts;
use sok_settle::offers::offers_bytes;
use sok_settle::settle::{Span, settle_bytes};
use sok_store::book::{Book, OpenRefused};
use sqlite::{Alter, Connection};
use std::io::Write;

/// Adds the levels of a collection.
pub(crate) fn add<
    S: Alter + Drop,
    F: Folder + Databases<Opened = Connection<S>> + AllocGlobal,
    W: Write,
>(rt: &F, db: &str, path: &str, out: &mut W) -> Result<u8, ToolFault>
    requires { (F.databases rt.now).may_change db.now }
    ensures { RunsAdd (files_by F.Output.contents (F.files rt.now))
        (databases_by (state S.Store) (F.databases rt.now))
        db.now path.now (record { old = W.contents out.old; new = W.contents out.new }) result }
{
    let (mut book, mut input) = book_and_file(rt, db, Access::Make, path)?;
    let ended = add_bytes(rt.alloc(), &mut book, &mut input, out);
    let told = told_by(rt, ended);
    rt.close(db, book.into_connection());
    told
}

/// Offers a text of letters to the level with an id.
pub(crate) fn offer<S: Alter + Drop, F: Databases<Opened = Connection<S>> + AllocGlobal, W: Write>(
    rt: &F,
    db: &str,
    id: i64,
    text: &[u8],
    out: &mut W,
) -> Result<u8, ToolFault>
    requires { (F.databases rt.now).may_change db.now }
    ensures { RunsOffer
        (databases_by (state S.Store) (F.databases rt.now))
        db.now id (record { old = W.contents out.old; new = W.contents out.new }) result text.now }
{
    let mut book = book_of(rt, db, Access::Change)?;
    let ended = offer_bytes(rt.alloc(), &mut book, id, text, out);
    let told = told_by(rt, ended);
    rt.close(db, book.into_connection());
    told
}

/// Offers the lines of a text.
pub(crate) fn offers<
    S: Alter + Drop,
    F: Folder + Databases<Opened = Connection<S>> + AllocGlobal,
    W: Write,
>(rt: &F, db: &str, path: &str, out: &mut W) -> Result<u8, ToolFault>
    requires { (F.databases rt.now).may_change db.now }
    ensures { RunsOffers (files_by F.Output.contents (F.files rt.now))
        (databases_by (state S.Store) (F.databases rt.now))
        db.now path.now (record { old = W.contents out.old; new = W.contents out.new }) result }
{
    let (mut book, mut input) = book_and_file(rt, db, Access::Change, path)?;
    rt.notes().expect_offers();
    let ended = offers_bytes(rt.alloc(), &mut book, &mut input, out);
    let told = told_by(rt, ended);
    rt.close(db, book.into_connection());
    told
}

/// Judges a certificate for the level with an id.
pub(crate) fn prove<
    S: Alter + Drop,
    F: Folder + Databases<Opened = Connection<S>> + AllocGlobal,
    W: Write,
>(rt: &F, db: &str, id: i64, path: &str, out: &mut W) -> Result<u8, ToolFault>
    requires { (F.databases rt.now).may_change db.now }
    ensures { RunsProve (files_by F.Output.contents (F.files rt.now))
        (databases_by (state S.Store) (F.databases rt.now))
        db.now id path.now (record { old = W.contents out.old; new = W.contents out.new }) result }
{
    let (mut book, mut cert_input) = book_and_file(rt, db, Access::Change, path)?;
    let ended = prove_bytes(rt.alloc(), &mut book, id, &mut cert_input, out);
    let told = told_by(rt, ended);
    rt.close(db, book.into_connection());
    told
}

/// Settles the levels of a span that have no verdict. If a folder is given, the certificate of each
/// level that is settled is kept there.
pub(crate) fn settle<
    S: Alter + Drop,
    F: Folder + Databases<Opened = Connection<S>> + AllocGlobal,
    W: Write,
>(
    rt: &F,
    db: &str,
    limit: u32,
    span: Span,
    folder: Option<String>,
    out: &mut W,
) -> Result<u8, ToolFault>
    requires change { (F.databases rt.now).may_change db.now }
    requires keep { IfSome (option_map (λ s. string_bytes s) folder) (MayKeep (F.files rt.now)) }
    ensures { RunsSettle (files_by F.Output.contents (F.files rt.now))
        (databases_by (state S.Store) (F.databases rt.now))
        db.now limit span (option_map (λ s. string_bytes s) folder) (record { old = W.contents out.old; new = W.contents out.new }) result }
{
    let mut book = book_and_folder(rt, db, &folder)?;
    let ended = settle_book(rt, &mut book, db, limit, span, folder, out);
    let told = told_by(rt, ended);
    rt.close(db, book.into_connection());
    told
}

/// Settles the levels of a span of a book.
fn settle_book<S: Alter, F: Folder + Databases + AllocGlobal, W: Write>(
    rt: &F,
    book: &mut Book<S>,
    db: &str,
    limit: u32,
    span: Span,
    folder: Option<String>,
    out: &mut W,
) -> Result<u8, ToolFault>
    requires { IfSome (option_map (λ s. string_bytes s) folder) (MayKeep (F.files rt.now)) }
    ensures writes { ChangesBook (state S.Store book.old) (state S.Store book.new) (λ pages after.
        WritesSettling (keeping_of (files_by F.Output.contents (F.files rt.now)) db.now
        (option_map (λ s. string_bytes s) folder)) limit span pages after
        (W.contents out.old) (W.contents out.new) result) }
    ensures bad_limit { IsBadLimit limit → result ≡ Err tool.BadLimit }
    ensures stop { Stops (state S.Store book.old) (state S.Store book.new)
        (SettlesSome (keeping_of (files_by F.Output.contents (F.files rt.now)) db.now
        (option_map (λ s. string_bytes s) folder)) limit span) }
    ensures cause { IfErr result (IsCausedFault (state S.Store book.old) (state S.Store book.new)
        (SettlesSome (keeping_of (files_by F.Output.contents (F.files rt.now)) db.now
        (option_map (λ s. string_bytes s) folder)) limit span)) }
{
    let progress = rt.notes().progress();
    match folder {
        Some(folder) => {
            let certs = CertFolder {
                files: rt,
                path: folder.as_str(),
                own: Own::book(db),
            };
            let certs = WatchedCerts { certs, progress };
            settle_bytes(rt.alloc(), book, limit, span, &certs, out)
        }
        None => {
            let certs = WatchedCerts {
                certs: NoCerts,
                progress,
            };
            settle_bytes(rt.alloc(), book, limit, span, &certs, out)
        }
    }
}

/// Shows the level with an id.
pub(crate) fn show<S: Alter + Drop, F: Databases<Opened = Connection<S>> + AllocGlobal, W: Write>(
    rt: &F,
    db: &str,
    id: i64,
    out: &mut W,
) -> Result<u8, ToolFault>
    ensures { RunsShowing
        (databases_by (state S.Store) (F.databases rt.now))
        db.now (λ book. IsShow book id) (record { old = W.contents out.old; new = W.contents out.new }) result }
{
    let mut book = book_of(rt, db, Access::Read)?;
    let told = show_bytes(rt.alloc(), &mut book, id, out);
    rt.close(db, book.into_connection());
    told
}

/// Writes a text of all levels.
pub(crate) fn tell<S: Alter + Drop, F: Databases<Opened = Connection<S>> + AllocGlobal, W: Write>(
    rt: &F,
    db: &str,
    text: BookText,
    out: &mut W,
) -> Result<u8, ToolFault>
    ensures { RunsShowing
        (databases_by (state S.Store) (F.databases rt.now))
        db.now (IsBookText text) (record { old = W.contents out.old; new = W.contents out.new }) result }
{
    let mut book = book_of(rt, db, Access::Read)?;
    let told = book_bytes(rt.alloc(), &mut book, text, out);
    rt.close(db, book.into_connection());
    told
}

/// Returns what is reported of a command on a book. If a write failed because another file now has
/// the database's path, that is a fault of the database.
fn told_by<F: Databases>(rt: &F, ended: Result<u8, ToolFault>) -> Result<u8, ToolFault>
    ensures { IsTold (F.databases rt.now).moves ended result }
{
    match ended {
        Err(ToolFault::WriteFailed) if !rt.stands() => Err(ToolFault::Book(BookFault::Database)),
        _ => ended,
    }
}

/// Opens the database at a path as a book.
fn book_of<S: Alter + Drop, F: Databases<Opened = Connection<S>> + AllocGlobal>(
    rt: &F,
    db: &str,
    access: Access,
) -> Result<Book<S>, ToolFault>
    requires { MayOpen (F.databases rt.now) access db.now }
    ensures opens { IfOk result (OpensFound (place (state S.Store) (F.databases rt.now) access db.now)) }
    ensures refused { IfErr result
        (IsWithoutBook (place (state S.Store) (F.databases rt.now) access db.now) IsNeverLacking) }
{
    let found = rt.database(db, access)?;
    opened(rt, db, found)
}

/// Opens the database at `db` as a book, and then the file at `path`.
fn book_and_file<S: Alter + Drop, F: Folder + Databases<Opened = Connection<S>> + AllocGlobal>(
    rt: &F,
    db: &str,
    access: Access,
    path: &str,
) -> Result<(Book<S>, F::Input), ToolFault>
    requires { MayOpen (F.databases rt.now) access db.now }
    ensures opens { IfOk result (λ both. OpensFound (place (state S.Store) (F.databases rt.now) access db.now) both.0) }
    ensures reads { IfOk result (λ both. (F.files rt.now).reads path.now (F.Input.remaining both.1)) }
    ensures refused { IfErr result
        (IsWithoutBook (place (state S.Store) (F.databases rt.now) access db.now) (IsFileless ((F.files rt.now).lacks path.now))) }
{
    let book = book_of(rt, db, access)?;
    match open(rt, path) {
        Ok(input) => Ok((book, input)),
        Err(fault) => {
            rt.close(db, book.into_connection());
            Err(fault)
        }
    }
}

/// Opens the database at a path as a book, and then tests the folder for certificates, if one is
/// given.
fn book_and_folder<S: Alter + Drop, F: Folder + Databases<Opened = Connection<S>> + AllocGlobal>(
    rt: &F,
    db: &str,
    folder: &Option<String>,
) -> Result<Book<S>, ToolFault>
    requires change { (F.databases rt.now).may_change db.now }
    requires keep { IfSome (option_map (λ s. string_bytes s) folder.now) (MayKeep (F.files rt.now)) }
    ensures opens { IfOk result (OpensFound (place (state S.Store) (F.databases rt.now) accesses.Settle db.now)) }
    ensures refused { IfErr result (IsWithoutBook (place (state S.Store) (F.databases rt.now) accesses.Settle db.now)
        (IsFolderless (files_by F.Output.contents (F.files rt.now)) (option_map (λ s. string_bytes s) folder.now))) }
{
    let book = book_of(rt, db, Access::Settle)?;
    if let Some(folder) = folder {
        if rt.try_folder(folder.as_str()).is_err() {
            rt.close(db, book.into_connection());
            return Err(ToolFault::WriteFailed);
        }
    }
    Ok(book)
}

/// Opens a database as a book. If it is refused, the connection is given back. A connection in a
/// transaction is `Database`; no database is opened as such a connection.
fn opened<S: Alter + Drop, F: Databases<Opened = Connection<S>> + AllocGlobal>(
    rt: &F,
    db: &str,
    connection: Connection<S>,
) -> Result<Book<S>, ToolFault>
    ensures opens { (access : Access) → (F.databases rt.now).opens_as access db.now connection
        → IfOk result (OpensFound (place (state S.Store) (F.databases rt.now) access db.now)) }
    ensures refused { (access : Access) → (F.databases rt.now).opens_as access db.now connection
        → IfErr result (IsWithoutBook (place (state S.Store) (F.databases rt.now) access db.now) IsNeverLacking) }
{
    if !connection.is_autocommit() {
        rt.close(db, connection);
        return Err(ToolFault::Book(BookFault::Database));
    }
    match Book::open(rt.alloc(), connection) {
        Ok(book) => Ok(book),
        Err(refused) => {
            let OpenRefused { connection, fault } = refused;
            rt.refuse(db, connection, fault);
            Err(ToolFault::from(fault))
        }
    }
}
