//! What is done in a session of play.

ghost use Rattle.sok_sketch.specs.Acts.{Acts};

use sok_rules::cell::Dir;
use sok_rules::fault::PlayFault;
use sok_rules::session::Session;

/// What is done in a session.
#[derive(Clone, Copy)]
pub enum Act {
    Play(Dir),
    Undo,
    Redo,
    Reset,
}

/// Does an act. Returns whether a letter pushes, and for `Undo` and `Redo` whether a letter was
/// undone or played again. `Reset` always goes back to the start and returns true.
pub fn answer(session: &mut Session, act: Act) -> Result<bool, PlayFault>
    ensures { Acts act session.old session.new result }
{
    match act {
        Act::Play(dir) => session.step(dir),
        Act::Undo => Ok(session.undo()),
        Act::Redo => Ok(session.redo()),
        Act::Reset => {
            session.reset();
            Ok(true)
        }
    }
}
