//! Each command on its files. The files are opened or made in the order in which the words name
//! them, before anything is read.

ghost use Rattle.std.specs.Prelude.{◌≢◌, IfSome, option_map, string_bytes};
ghost use Rattle.sok_engine.specs.Inputs.{Within};
ghost use Rattle.sok_engine.specs.Limits.{cert_limit, input_limit};
ghost use Rattle.sok_engine.specs.Written.{Writes};
ghost use Rattle.sok_judge.specs.Checks.{IsCheck};
ghost use Rattle.sok_play.specs.Drawings.{IsDrawing};
ghost use Rattle.sok_play.specs.Listing.{IsListing};
ghost use Rattle.sok_play.specs.Plays.{IsReplay};
ghost use Rattle.sok_files.specs.Files.{IsMade, OfFile, OfFiles};
ghost use Rattle.sok_files.specs.Solving.{SolvesLevel, SolvesTo};
ghost use Rattle.sok_solve.specs.Solves.{IsSolve};

use crate::file::{create, open};
use crate::folder::Folder;
use crate::own::Own;
use sok_engine::fault::ToolFault;
use sok_engine::serving::{Engine, serve};
use sok_judge::check::check_bytes;
use sok_play::drawing::Drawing;
use sok_play::listing::Listing;
use sok_play::play::Replay;
use sok_solve::solve::solve_bytes;
use sok_solve::task::Task;
use std::io::Write;

/// Opens a file, and writes to `out` what an engine answers to its bytes.
fn serve_file<E: Engine, F: Folder + AllocGlobal, W: Write>(
    rt: &F,
    path: &str,
    engine: &E,
    out: &mut W,
) -> Result<u8, ToolFault>
    ensures { Writes
        (OfFile ((F.files rt.now).reads path.now) (Within input_limit (E.answers engine.now)))
        (W.contents out.old) (W.contents out.new) result }
{
    let mut input = open(rt, path)?;
    serve(rt.alloc(), engine, &mut input, out)
}

/// Lists the levels of a collection.
pub fn list<F: Folder + AllocGlobal, W: Write>(
    rt: &F,
    path: &str,
    out: &mut W,
) -> Result<u8, ToolFault>
    ensures { Writes (OfFile ((F.files rt.now).reads path.now) (Within input_limit IsListing))
        (W.contents out.old) (W.contents out.new) result }
{
    serve_file(rt, path, &Listing, out)
}

/// Plays a text of letters on the n-th level of a collection.
pub fn replay<F: Folder + AllocGlobal, W: Write>(
    rt: &F,
    path: &str,
    n: u32,
    text: &[u8],
    out: &mut W,
) -> Result<u8, ToolFault>
    ensures { Writes (OfFile ((F.files rt.now).reads path.now) (Within input_limit (IsReplay n text.now)))
        (W.contents out.old) (W.contents out.new) result }
{
    let n = n as usize;
    serve_file(rt, path, &Replay { n, text }, out)
}

/// Draws the n-th level of a collection after a text of letters was played.
pub fn draw<F: Folder + AllocGlobal, W: Write>(
    rt: &F,
    path: &str,
    n: u32,
    text: &[u8],
    out: &mut W,
) -> Result<u8, ToolFault>
    ensures { Writes (OfFile ((F.files rt.now).reads path.now) (Within input_limit (IsDrawing n text.now)))
        (W.contents out.old) (W.contents out.new) result }
{
    let n = n as usize;
    serve_file(rt, path, &Drawing { n, text }, out)
}

/// Judges a certificate for the n-th level of a collection. The certificate is read only if the
/// level has a board.
pub fn check<F: Folder + AllocGlobal, W: Write>(
    rt: &F,
    path: &str,
    n: u32,
    cert_path: &str,
    out: &mut W,
) -> Result<u8, ToolFault>
    ensures { Writes (OfFiles ((F.files rt.now).reads path.now) ((F.files rt.now).reads cert_path.now)
        (λ text. Within input_limit (IsCheck cert_limit n text)))
        (W.contents out.old) (W.contents out.new) result }
{
    let mut input = open(rt, path)?;
    let mut cert_input = open(rt, cert_path)?;
    check_bytes(rt.alloc(), &mut input, n as usize, &mut cert_input, out)
}

/// Solves a level of a collection. If `cert_path` is given, the certificate is written to that file,
/// which is new, empty or holds a certificate, and is not the collection's. Otherwise no certificate is
/// made.
pub fn solve<F: Folder + AllocGlobal, W: Write>(
    rt: &F,
    path: &str,
    task: &Task,
    cert_path: Option<String>,
    out: &mut W,
) -> Result<u8, ToolFault>
    requires { IfSome (option_map (λ s. string_bytes s) cert_path) (F.files rt.now).may_make }
    ensures { SolvesLevel path.now ((F.files rt.now).reads path.now)
        (λ place. IsMade F.Output.contents ((F.files rt.now).makes place)) task.now
        (option_map (λ s. string_bytes s) cert_path)
        (record { old = W.contents out.old; new = W.contents out.new }) result }
{
    match cert_path {
        Some(cert_path) => solve_with_file(rt, path, task, cert_path.as_str(), out),
        None => serve_file(rt, path, task, out),
    }
}

/// Solves a level and writes the certificate to a file that is made for it.
fn solve_with_file<F: Folder + AllocGlobal, W: Write>(
    rt: &F,
    path: &str,
    task: &Task,
    cert_path: &str,
    out: &mut W,
) -> Result<u8, ToolFault>
    requires { (F.files rt.now).may_make cert_path.now }
    ensures { SolvesTo (OfFile ((F.files rt.now).reads path.now) (Within input_limit (IsSolve task.now)))
        (λ cert. (path.now ≢ cert_path.now)
        × IsMade F.Output.contents ((F.files rt.now).makes cert_path.now) cert)
        (record { old = W.contents out.old; new = W.contents out.new }) result }
{
    let mut input = open(rt, path)?;
    let mut cert_out = create(rt, cert_path, &Own::collection(path))?;
    solve_bytes(rt.alloc(), &mut input, task, out, &mut cert_out)
}
