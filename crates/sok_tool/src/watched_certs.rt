//! How far `settle` has come, noted as it searches.

use sok_cert::claim::Claim;
use sok_engine::fault::ToolFault;
use sok_files::progress::Progress;
use sok_rules::level::Level;
use sok_search::finding::Finding;
use sok_settle::certs::Certs;
use std::alloc::Global;

/// Searches and keeps certificates as `certs` does, and notes each level that is searched.
#[derive(Drop)]
pub(crate) struct WatchedCerts<'a, C> {
    pub(crate) certs: C,
    pub(crate) progress: &'a Progress,
}

impl<C: Certs> Certs for WatchedCerts<'_, C> {
    type Taken = C::Taken;

    ghost certifies = { λ taken rows limit shown. C.certifies taken rows limit shown };

    ghost keeping = { λ watched. C.keeping watched.certs };

    ghost may_keep = { λ watched. C.may_keep watched.certs };

    fn expect(&self, levels: usize) {
        self.progress.expect(levels);
    }

    fn begin(&self, id: i64) {
        self.progress.begin(id);
    }

    fn search(
        &self,
        alloc: Global,
        level: &Level,
        limit: u32,
        best: Option<u32>,
    ) -> Result<(Finding, C::Taken), ToolFault> {
        self.certs.search(alloc, level, limit, best)
    }

    fn keep(
        &self,
        alloc: Global,
        id: i64,
        claim: &Claim,
        taken: C::Taken,
    ) -> Result<(), ToolFault> {
        self.certs.keep(alloc, id, claim, taken)
    }
}
