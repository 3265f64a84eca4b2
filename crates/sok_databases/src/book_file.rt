//! A file of a book: a file of the machine, or a copy of one in memory.

ghost use Rattle.std.specs.Prelude.{refl};
ghost use Rattle.std.proofs.Common.{inl};

use sqlite::File;
use sqlite_disk::{Disk, Memory, Start, Tally, Unknown};
use std::io;

/// A file of a book, as the database sees it.
#[derive(Drop)]
pub enum BookFile {
    /// A file of the machine.
    Machine(File),
    /// A copy in memory: what such a file held when it was read.
    Copy(Memory),
}

impl Disk for BookFile {
    ghost use Rattle.sqlite_disk.specs.Fair.{fair_if_honest};
    ghost use Rattle.sqlite_disk.specs.Modelled.{start_of};
    ghost use Rattle.sok_databases.specs.declared.book_file.BookFile.TheVariants.{Machine, Copy};

    ghost seen = { λ f. elim f [ Machine m ↦ ⟦<File as Disk>⟧.seen m | Copy c ↦ ⟦<Memory as Disk>⟧.seen c ] };

    ghost may_leave = { λ f. elim f [ Machine m ↦ ⟦<File as Disk>⟧.may_leave m | Copy c ↦ ⟦<Memory as Disk>⟧.may_leave c ] };

    ghost is_usable = { λ f. elim f [ Machine m ↦ ⟦<File as Disk>⟧.is_usable m | Copy c ↦ ⟦<Memory as Disk>⟧.is_usable c ] };

    ghost faults = { λ f. elim f [ Machine m ↦ ⟦<File as Disk>⟧.faults m | Copy c ↦ ⟦<Memory as Disk>⟧.faults c ] };

    ghost tally_of = { λ f. elim f [ Machine m ↦ ⟦<File as Disk>⟧.tally_of m | Copy c ↦ ⟦<Memory as Disk>⟧.tally_of c ] };

    ghost is_clean = { λ f. elim f [ Machine m ↦ ⟦<File as Disk>⟧.is_clean m | Copy c ↦ ⟦<Memory as Disk>⟧.is_clean c ] };

    ghost key_of = { λ f. elim f [ Machine m ↦ ⟦<File as Disk>⟧.key_of m | Copy c ↦ ⟦<Memory as Disk>⟧.key_of c ] };

    ghost is_fair = { λ f. elim f [ Machine m ↦ ⟦<File as Disk>⟧.is_fair m | Copy c ↦ ⟦<Memory as Disk>⟧.is_fair c ] };

    ghost is_mixing = { λ f. elim f [ Machine m ↦ ⟦<File as Disk>⟧.is_mixing m | Copy c ↦ ⟦<Memory as Disk>⟧.is_mixing c ] };

    ghost fair_if_clean = { elim [ Machine m ↦ fair_if_honest (start_of ⟦<Unknown as Start>⟧ m) m.calls.log.events | Copy _ ↦ λ _ _. refl ] };

    ghost seen_may_stay = { elim [ Machine _ ↦ inl refl | Copy _ ↦ inl refl ] };

    fn mixes(&self) -> bool {
        match self {
            BookFile::Machine(file) => file.mixes(),
            BookFile::Copy(copy) => copy.mixes(),
        }
    }

    fn key(&self) -> u64 {
        match self {
            BookFile::Machine(file) => file.key(),
            BookFile::Copy(copy) => copy.key(),
        }
    }

    fn tally(&self) -> Tally {
        match self {
            BookFile::Machine(file) => file.tally(),
            BookFile::Copy(copy) => copy.tally(),
        }
    }

    fn may_be_used(&self) -> bool {
        match self {
            BookFile::Machine(file) => file.may_be_used(),
            BookFile::Copy(copy) => copy.may_be_used(),
        }
    }

    fn len(&mut self) -> io::Result<usize> {
        match self {
            BookFile::Machine(file) => file.len(),
            BookFile::Copy(copy) => copy.len(),
        }
    }

    fn read_at(&mut self, at: usize, buf: &mut [u8]) -> io::Result<()> {
        match self {
            BookFile::Machine(file) => file.read_at(at, buf),
            BookFile::Copy(copy) => copy.read_at(at, buf),
        }
    }

    fn read_checked(&mut self, key: u64, want: u64, at: usize, buf: &mut [u8]) -> io::Result<()> {
        match self {
            BookFile::Machine(file) => file.read_checked(key, want, at, buf),
            BookFile::Copy(copy) => copy.read_checked(key, want, at, buf),
        }
    }

    fn write_at(&mut self, at: usize, bytes: &[u8]) -> io::Result<()> {
        match self {
            BookFile::Machine(file) => file.write_at(at, bytes),
            BookFile::Copy(copy) => copy.write_at(at, bytes),
        }
    }

    fn set_len(&mut self, len: usize) -> io::Result<()> {
        match self {
            BookFile::Machine(file) => file.set_len(len),
            BookFile::Copy(copy) => copy.set_len(len),
        }
    }

    fn sync(&mut self) -> io::Result<()> {
        match self {
            BookFile::Machine(file) => file.sync(),
            BookFile::Copy(copy) => copy.sync(),
        }
    }
}
