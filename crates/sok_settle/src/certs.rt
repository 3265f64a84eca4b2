//! How the levels of a book are searched, and where their certificates go.

ghost use Rattle.std.specs.Prelude.{◌≡◌, ◌≤◌, IfErr, IfOk, IfSome, ℕ, ⊤};
ghost use Rattle.sok_rules.specs.Squares.{Rows};
ghost use Rattle.sok_board.specs.Refusals.{IsAcceptable};
ghost use Rattle.sok_cert.specs.Claim.{Claim};
ghost use Rattle.sok_cert.specs.Text.{number_limit};
ghost use Rattle.sok_engine.specs.declared.fault.ToolFault.TheVariants as tool;
ghost use Rattle.sok_search.specs.Faults.{IsBadLimit};
ghost use Rattle.sok_settle.specs.Finding.{Shows};
ghost use Rattle.sok_settle.specs.Keeping.{Keeping, TellsKept, no_certs};

use crate::search::search_alone;
use sok_cert::claim::Claim;
use sok_engine::fault::ToolFault;
use sok_rules::level::Level;
use sok_search::finding::Finding;
use std::alloc::Global;

/// How the levels of a book are searched, and where their certificates go, such as the files of a folder.
pub trait Certs {
    /// The certificate of what a search found, until it is kept.
    type Taken: Drop;

    // It certifies a claim about a level with these rows, with at most so many entries.
    ghost certifies: { Self.Taken → Rows → ℕ → Claim → Type 0 };

    // Which certificates may be kept, and for which levels one may fail to be written.
    ghost keeping: { Self → Keeping };

    // Whether certificates may be kept there at all.
    ghost may_keep: { Self → Type 0 };

    /// Takes note of how many levels will be searched.
    fn expect(&self, _levels: usize) {}

    /// Takes note that the level with an id is searched next.
    fn begin(&self, _id: i64) {}

    /// Searches a level beside a best with so many pushes, or alone. It fails only if memory is refused.
    fn search(
        &self,
        alloc: Global,
        level: &Level,
        limit: u32,
        best: Option<u32>,
    ) -> Result<(Finding, Self::Taken), ToolFault>
        requires good_limit { IsBadLimit limit → ⊥ }
        requires accepted { IsAcceptable level.now }
        requires small { IfSome best (λ k. k ≤ number_limit) }
        ensures found { IfOk result
            (λ it. Shows (certifies it.1 level.now limit) level.now limit best it.0) }
        ensures memory { IfErr result (λ fault. fault ≡ tool.Memory) };

    /// Keeps the certificate of the level with an id.
    ///
    /// Errors: `Memory`; `WriteFailed` if it can't be written.
    fn keep(
        &self,
        alloc: Global,
        id: i64,
        claim: &Claim,
        taken: Self::Taken,
    ) -> Result<(), ToolFault>
        requires { may_keep self.now }
        ensures { (rows : Rows) (limit : ℕ) → certifies taken rows limit claim.now
            → TellsKept (keeping self.now) limit id rows claim.now result };
}

/// No certificate is wanted, and none is made.
#[derive(Drop)]
pub struct NoCerts;

/// In place of a certificate.
#[derive(Drop)]
pub struct Nothing;

impl Certs for NoCerts {
    type Taken = Nothing;

    ghost certifies = { λ _ _ _ _. ⊤ };

    ghost keeping = { λ _. no_certs };

    ghost may_keep = { λ _. ⊤ };

    fn search(
        &self,
        alloc: Global,
        level: &Level,
        limit: u32,
        best: Option<u32>,
    ) -> Result<(Finding, Nothing), ToolFault> {
        let finding = search_alone(alloc, level, limit, best)?;
        Ok((finding, Nothing))
    }

    fn keep(
        &self,
        _alloc: Global,
        _id: i64,
        _claim: &Claim,
        _taken: Nothing,
    ) -> Result<(), ToolFault> {
        Ok(())
    }
}
