//! Solving a level without a certificate.

ghost use Rattle.sok_engine.specs.Written.{Gives};
ghost use Rattle.sok_solve.specs.Solves.{IsFind, IsFindAnswer};

use crate::report::{report, tool_fault};
use crate::task::Task;
use sok_engine::answer::Answer;
use sok_engine::fault::ToolFault;
use sok_engine::serving::Engine;
use sok_rules::level::Level;
use sok_search::solve::search;
use sok_text::collection::Collection;
use std::alloc::Global;

/// Solves the level with the same lines and faults as `solve_bytes`, but without a certificate, which
/// takes time and most of the memory. A search without one may succeed within a limit that
/// `solve_bytes` exceeds, and its bound at a limit may be another one.
impl Engine for Task {
    ghost answers = { λ task. IsFind task };

    fn answer(&self, alloc: Global, input: &[u8]) -> Result<Answer, ToolFault> {
        let level = Collection::read(alloc, input)?.level(alloc, self.n as usize)?;
        answer(alloc, &level, self)
    }
}

/// Returns the answer to a level.
fn answer(alloc: Global, level: &Level, task: &Task) -> Result<Answer, ToolFault>
    ensures { Gives (IsFindAnswer task.now level.now) result }
{
    match search(alloc, level, task.limit, task.best()) {
        Ok(found) => report(alloc, level, task, &found),
        Err(fault) => Err(tool_fault(fault)),
    }
}
