//! The certificates of a book's levels, in files.

ghost use Rattle.std.specs.Prelude.{◌≡◌, ◌≢◌, ◌⊎◌, List, Option, IfOk, IfSome, MatchResult, string_bytes, ℕ};
ghost use Rattle.std.specs.Io.KnownBytes.{Appends};
ghost use Rattle.sok_engine.specs.Certified.{Bytes};
ghost use Rattle.sok_engine.specs.declared.fault.ToolFault.TheVariants as tool;
ghost use Rattle.sok_files.specs.Files.{IsMade, MayKeep, cert_path, files_by};
ghost use Rattle.sok_settle.specs.Finding.{IsCertified};
ghost use Rattle.sok_solve.specs.Lines.{HasLines};
ghost use Rattle.sok_tool.specs.Certs.{KeepsText, keeping_in};

use sok_cert::claim::Claim;
use sok_engine::fault::ToolFault;
use sok_engine::input::{InputFault, read_certificate};
use sok_files::file::{create, open};
use sok_files::folder::Folder;
use sok_files::own::Own;
use sok_rules::level::Level;
use sok_search::finding::Finding;
use sok_settle::certs::Certs;
use sok_settle::search::search_into;
use sok_solve::certificate::{EntryLines, ReadyCert};
use std::alloc::{AllocError, Global};

/// A folder for certificates. The file `ID.cert` holds that of the level with this id. No
/// certificate is written into the file of the book.
#[derive(Drop)]
pub(crate) struct CertFolder<'a, F> {
    pub(crate) files: &'a F,
    pub(crate) path: &'a str,
    pub(crate) own: Own<'a>,
}

impl<F: Folder> Certs for CertFolder<'_, F> {
    type Taken = EntryLines;

    ghost certifies = { λ taken rows limit shown. IsCertified (HasLines taken) rows limit shown };

    ghost keeping = { λ certs. keeping_in
        (files_by F.Output.contents (F.files certs.files.now)) certs.own.path.now certs.path.now };

    ghost may_keep = { λ certs. MayKeep (F.files certs.files.now) certs.path.now };

    fn search(
        &self,
        alloc: Global,
        level: &Level,
        limit: u32,
        best: Option<u32>,
    ) -> Result<(Finding, EntryLines), ToolFault> {
        let mut taken = EntryLines::new(alloc);
        let finding = search_into(alloc, level, limit, best, &mut taken)?;
        Ok((finding, taken))
    }

    fn keep(
        &self,
        alloc: Global,
        id: i64,
        claim: &Claim,
        taken: EntryLines,
    ) -> Result<(), ToolFault> {
        let cert = ReadyCert::new(alloc, claim, taken)?;
        let path = path_of(alloc, self.path, id)?;
        keep_at(alloc, self.files, path.as_str(), &self.own, &cert)
    }
}

/// Returns the path of the certificate of the level with an id.
fn path_of(alloc: Global, folder: &str, id: i64) -> Result<String, AllocError>
    ensures { IfOk result (λ path. string_bytes path ≡ cert_path folder.now id) }
{
    format!(in alloc; "{folder}/{id}.cert")
}

/// Keeps a certificate in the file at `path`. A whole certificate there is never replaced by
/// another one.
fn keep_at<F: Folder>(
    alloc: Global,
    files: &F,
    path: &str,
    own: &Own<'_>,
    cert: &ReadyCert,
) -> Result<(), ToolFault>
    requires { (F.files files.now).may_make path.now }
    ensures { MatchResult result
        (λ _. KeepsText (files_by F.Output.contents (F.files files.now))
        own.now.path.now path.now cert.now)
        (λ fault. (fault ≡ tool.Memory) ⊎ (fault ≡ tool.WriteFailed)) }
{
    match files.has_certificate(path) {
        Ok(true) => keep_same(alloc, files, path, cert),
        Ok(false) => write_to(files, path, own, cert),
        Err(_) => Err(ToolFault::WriteFailed),
    }
}

/// Keeps a certificate at a path where there is a whole one: both have to be the same.
fn keep_same<F: Folder>(
    alloc: Global,
    files: &F,
    path: &str,
    cert: &ReadyCert,
) -> Result<(), ToolFault>
    ensures { MatchResult result
        (λ _. (known : Option (List ℕ)) × (F.files files.now).reads path.now known × IfSome known (λ all. all ≡ cert.now))
        (λ fault. (fault ≡ tool.Memory) ⊎ (fault ≡ tool.WriteFailed)) }
{
    let Ok(mut there) = open(files, path) else {
        return Err(ToolFault::WriteFailed);
    };
    let cause = match read_certificate(alloc, &mut there) {
        Ok(bytes) if cert.is(bytes.as_slice()) => return Ok(()),
        Err(InputFault::Memory) => return Err(ToolFault::Memory),
        Err(InputFault::TooMuch) => "a certificate too long to be read is in this file",
        _ => "another certificate is in this file",
    };
    files.note(path, cause);
    Err(ToolFault::WriteFailed)
}

/// Writes a certificate to a file that is made for it. If it can't be written whole, the file is
/// removed, if that is possible.
fn write_to<F: Folder>(
    files: &F,
    path: &str,
    own: &Own<'_>,
    cert: &ReadyCert,
) -> Result<(), ToolFault>
    requires { (F.files files.now).may_make path.now }
    ensures { MatchResult result
        (λ _. (made : Bytes) × (path.now ≢ own.now.path.now)
        × IsMade F.Output.contents ((F.files files.now).makes path.now) made
        × Appends made.old made.new cert.now)
        (λ fault. fault ≡ tool.WriteFailed) }
{
    let mut file = create(files, path, own)?;
    match cert.write(&mut file) {
        Ok(()) => Ok(()),
        Err(_) => {
            files.remove(path, &file);
            Err(ToolFault::WriteFailed)
        }
    }
}
