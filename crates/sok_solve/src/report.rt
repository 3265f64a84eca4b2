//! The answer that reports what a search found.

ghost use Rattle.std.specs.Prelude.{◌≡◌, IfOk, MatchResult};
ghost use Rattle.sok_engine.specs.declared.fault.ToolFault.TheVariants as tool;
ghost use Rattle.sok_rules.specs.Play.{Solves};
ghost use Rattle.sok_solve.specs.Faults.{of_solve};
ghost use Rattle.sok_solve.specs.Reports.{HasSolution};
ghost use Rattle.sok_solve.specs.Solves.{answer_of, limit_text, no_better_text, solution_text};

use crate::task::Task;
use sok_engine::answer::Answer;
use sok_engine::fault::ToolFault;
use sok_rules::cell::Dir;
use sok_rules::level::Level;
use sok_search::fault::SolveFault;
use sok_search::finding::Finding;
use sok_text::lurd::print_lurd;
use std::alloc::{AllocError, Global};

/// Returns the answer that reports what was found.
pub(crate) fn report(
    alloc: Global,
    level: &Level,
    task: &Task,
    found: &Finding,
) -> Result<Answer, ToolFault>
    requires { HasSolution level.now found.now }
    ensures { MatchResult result (λ told. told ≡ answer_of level.now task.now found.now)
        (λ fault. fault ≡ tool.Memory) }
{
    match found {
        Finding::Solved { dirs, pushes } => {
            let text = solution_text(alloc, level, dirs.as_slice(), *pushes)?;
            Ok(Answer::new(text, 0))
        }
        Finding::NoBetter => {
            let text = no_better_text(alloc, task.best())?;
            Ok(Answer::new(text, 0))
        }
        Finding::Limit { states, at_least } => {
            let text = limit_text(alloc, *states, task.bound, *at_least)?;
            Ok(Answer::new(text, 4))
        }
    }
}

/// Returns the line of a solution, and its marked text on a line of its own.
fn solution_text(
    alloc: Global,
    level: &Level,
    dirs: &[Dir],
    pushes: u32,
) -> Result<Vec<u8>, ToolFault>
    requires { Solves level.now dirs.now }
    ensures { MatchResult result (λ text. text.items ≡ solution_text level.now dirs.now pushes)
        (λ fault. fault ≡ tool.Memory) }
{
    let moves = dirs.len();
    let line = format!(in alloc; "solved {pushes} {moves}\n")?;
    let mut text = line.into_bytes();
    let marked = print_lurd(alloc, level, dirs)?;
    text.extend_from_slice(&marked)?;
    text.push(b'\n')?;
    Ok(text)
}

/// Returns the line which says that no solution has fewer pushes than a known one, or that there is
/// none.
fn no_better_text(alloc: Global, best: Option<u32>) -> Result<Vec<u8>, AllocError>
    ensures { IfOk result (λ text. text.items ≡ no_better_text best) }
{
    match best {
        Some(best) => {
            let line = format!(in alloc; "at least {best}\n")?;
            Ok(line.into_bytes())
        }
        None => {
            let line = String::from_str(alloc, "unsolvable\n")?;
            Ok(line.into_bytes())
        }
    }
}

/// Returns the line for a limit that was exceeded, with the lower bound if that is wanted.
fn limit_text(alloc: Global, states: u32, bound: bool, at_least: u32) -> Result<Vec<u8>, AllocError>
    ensures { IfOk result (λ text. text.items ≡ limit_text states bound at_least) }
{
    if bound {
        let line = format!(in alloc; "limit {states} at least {at_least}\n")?;
        return Ok(line.into_bytes());
    }
    let line = format!(in alloc; "limit {states}\n")?;
    Ok(line.into_bytes())
}

/// Returns the fault of the engine for one of the solver.
pub(crate) fn tool_fault(fault: SolveFault) -> ToolFault
    ensures { result ≡ of_solve fault }
{
    match fault {
        SolveFault::BadLimit => ToolFault::BadLimit,
        SolveFault::Level(fault) => ToolFault::from(fault),
        SolveFault::Memory => ToolFault::Memory,
    }
}
