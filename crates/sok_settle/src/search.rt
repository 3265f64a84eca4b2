//! The search of a level, beside its best or alone.

ghost use Rattle.std.specs.Prelude.{◌≡◌, ◌≤◌, [], IfErr, IfOk, IfSome, ⊤};
ghost use Rattle.sok_board.specs.Refusals.{IsAcceptable};
ghost use Rattle.sok_cert.specs.Text.{number_limit};
ghost use Rattle.sok_engine.specs.declared.fault.ToolFault.TheVariants as tool;
ghost use Rattle.sok_search.specs.Faults.{IsBadLimit};
ghost use Rattle.sok_settle.specs.Finding.{IsCertified, Shows};

use sok_engine::fault::ToolFault;
use sok_rules::level::Level;
use sok_search::collecting::Entries;
use sok_search::fault::SolveFault;
use sok_search::finding::Finding;
use sok_search::solve;
use std::alloc::Global;

/// Searches a level beside a best with so many pushes, or alone. The level and the limit are known to be
/// good, so it fails only if memory is refused.
pub fn search_alone(
    alloc: Global,
    level: &Level,
    limit: u32,
    best: Option<u32>,
) -> Result<Finding, ToolFault>
    requires good_limit { IsBadLimit limit → ⊥ }
    requires accepted { IsAcceptable level.now }
    ensures found { IfOk result (Shows (λ _. ⊤) level.now limit best) }
    ensures memory { IfErr result (λ fault. fault ≡ tool.Memory) }
{
    match solve::search(alloc, level, limit, best) {
        Ok(finding) => Ok(finding),
        Err(SolveFault::Memory) => Err(ToolFault::Memory),
        Err(_) => unreachable!(),
    }
}

/// Searches as `search_alone` does, and hands a certificate of what it finds to `taken`. If the limit is
/// reached, it hands over none.
pub fn search_into<T: Entries>(
    alloc: Global,
    level: &Level,
    limit: u32,
    best: Option<u32>,
    taken: &mut T,
) -> Result<Finding, ToolFault>
    requires good_limit { IsBadLimit limit → ⊥ }
    requires accepted { IsAcceptable level.now }
    requires small { IfSome best (λ k. k ≤ number_limit) }
    requires none { T.took [] taken.old }
    ensures found { IfOk result
        (Shows (IsCertified (λ entries. T.took entries taken.new) level.now limit) level.now limit best) }
    ensures memory { IfErr result (λ fault. fault ≡ tool.Memory) }
{
    match solve::search_into(alloc, level, limit, best, false, taken) {
        Ok(finding) => Ok(finding),
        Err(SolveFault::Memory) => Err(ToolFault::Memory),
        Err(_) => unreachable!(),
    }
}
