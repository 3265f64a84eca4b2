//! Files by their paths.

ghost use Rattle.std.specs.Prelude.{◌≢◌, IfOk, MatchBool, MatchResult, OnErr, OnOk, pos, ⊤};
ghost use Rattle.sok_files.specs.Files.{Files, cert_path, unknown_files};

use crate::machine;
use crate::own::Own;
use std::fs::File;
use std::io::{self, Read, Write};

/// Files by their paths. The files of the machine are one implementation.
pub trait Folder {
    type Input: Read + Drop;

    type Output: Write + Drop;

    // What is known of the files, and which of them may be made, emptied or removed.
    ghost files: { Self → Files Self.Output };

    /// Opens a file that exists.
    fn open(&self, path: &str) -> io::Result<Self::Input>
        ensures { MatchResult result
            (λ file. (files self.now).reads path.now (Self.Input.remaining file))
            (λ _. (files self.now).lacks path.now) };

    /// Makes a file for a certificate, or empties the one at `path`. Fails if that file holds
    /// anything but a certificate, or is the run's own.
    fn create(&self, path: &str, own: &Own<'_>) -> io::Result<Self::Output>
        requires { (files self.now).may_make path.now }
        ensures made { IfOk result (λ file. (files self.now).makes path.now file) }
        ensures apart { OnOk result (path.now ≢ own.now.path.now) };

    /// Returns whether there is a whole certificate at `path`.
    fn has_certificate(&self, path: &str) -> io::Result<bool>
        ensures { IfOk result (λ whole. MatchBool whole ⊤ ((files self.now).lacks_certificate path.now)) };

    /// Checks that `path` is a folder in which files can be made. For that it makes the file of a
    /// level with the id 0, which no level has, and removes it.
    fn try_folder(&self, path: &str) -> io::Result<()>
        requires { (files self.now).may_make (cert_path path.now (pos 0)) }
        ensures { OnErr result ((files self.now).lacks_folder path.now) };

    /// Removes a file that was made at `path` and could not be written whole, if it is still there
    /// and can be removed.
    fn remove(&self, path: &str, file: &Self::Output)
        requires { (files self.now).may_make path.now };

    /// Notes why the file at `path` is not used.
    fn note(&self, path: &str, cause: &'static str);
}

/// The machine's files, and the standard input as `-`. No contract knows what they hold.
impl Folder for HostRuntime {
    type Input = File;

    type Output = File;

    ghost files = { λ _. unknown_files };

    fn open(&self, path: &str) -> io::Result<File> {
        machine::opened(self, path)
    }

    fn create(&self, path: &str, own: &Own<'_>) -> io::Result<File> {
        if path == own.path {
            return Err(own.error());
        }
        machine::for_certificate(self, path, own)
    }

    fn has_certificate(&self, path: &str) -> io::Result<bool> {
        machine::has_whole_certificate(self, path)
    }

    fn try_folder(&self, path: &str) -> io::Result<()> {
        machine::try_folder(self, path)
    }

    fn remove(&self, path: &str, file: &File) {
        machine::remove(self, path, file);
    }

    fn note(&self, _path: &str, _cause: &'static str) {}
}
