//! Opening and making the files that a command names.

ghost use Rattle.std.specs.Prelude.{◌≡◌, ◌≢◌, MatchResult, OnErr, OnOk};
ghost use Rattle.sok_engine.specs.declared.fault.ToolFault.TheVariants as tool;

use crate::folder::Folder;
use crate::own::Own;
use sok_engine::fault::ToolFault;

/// Opens a file that exists. Errors: `ReadFailed` if it can't be opened.
pub fn open<F: Folder>(folder: &F, path: &str) -> Result<F::Input, ToolFault>
    ensures opened { MatchResult result
        (λ file. (F.files folder.now).reads path.now (F.Input.remaining file))
        (λ fault. fault ≡ tool.ReadFailed) }
    ensures lacks { OnErr result ((F.files folder.now).lacks path.now) }
{
    match folder.open(path) {
        Ok(file) => Ok(file),
        Err(_) => Err(ToolFault::ReadFailed),
    }
}

/// Makes a file for a certificate, or empties the one at `path`. Errors: `WriteFailed` if that
/// can't be done, if the file holds anything but a certificate, or if it is the run's own.
pub fn create<F: Folder>(folder: &F, path: &str, own: &Own<'_>) -> Result<F::Output, ToolFault>
    requires { (F.files folder.now).may_make path.now }
    ensures made { MatchResult result
        ((F.files folder.now).makes path.now) (λ fault. fault ≡ tool.WriteFailed) }
    ensures apart { OnOk result (path.now ≢ own.now.path.now) }
{
    match folder.create(path, own) {
        Ok(file) => Ok(file),
        Err(_) => Err(ToolFault::WriteFailed),
    }
}
