//! Which pushes of a state are kept, with a fence and without one.

use crate::setting::{board, distances, setting};
use sok_corral::fencing::FenceScratch;
use sok_distance::setting::Setting;
use sok_rules::cell::Dir;
use sok_sketch::sketch;
use sok_state::key::Key;
use sok_state::legal::list_pushes;
use sok_state::push::Push;
use sok_state::scene::Scene;
use std::alloc::Global;
use std::test::Fail;

/// Returns how many pushes are legal at the start of a board, and those that are kept.
fn kept(alloc: Global, setting: &Setting<'_>) -> Result<(usize, Vec<Push>), Fail> {
    let board = setting.board;
    let key = Key::start(alloc, board)?;
    let mut scene = Scene::new(alloc, board);
    scene.open(board, &key)?;
    let mut pushes = Vec::new(alloc);
    list_pushes(board, &key, &scene, &mut pushes)?;
    let legal = pushes.len();
    let mut scratch = FenceScratch::new(alloc, board)?;
    scratch.narrow(setting, &key, &scene, &mut pushes)?;
    Ok((legal, pushes))
}

/// The box in the open can be pushed in each direction, and the one in the doorway in one. Only that push
/// is kept.
#[test]
fn pushes_of_a_fence(rt: HostRuntime) -> Result<(), Fail> {
    let board = board(rt.alloc(), sketch::BOX_IN_THE_DOORWAY)?;
    let distances = distances(rt.alloc(), &board)?;
    let (legal, kept) = kept(rt.alloc(), &setting(&board, &distances))?;
    assert_eq!(rt; legal, 5);
    let dir = Dir::Right;
    assert!(rt; kept.as_slice() == [Push { from: 8, dir }].as_slice());
    Ok(())
}

/// All are kept if the player reaches each square without a box.
#[test]
fn pushes_without_a_fence(rt: HostRuntime) -> Result<(), Fail> {
    let board = board(rt.alloc(), sketch::BOX_IN_THE_OPEN)?;
    let distances = distances(rt.alloc(), &board)?;
    let (legal, kept) = kept(rt.alloc(), &setting(&board, &distances))?;
    assert_eq!(rt; legal, 4);
    assert_eq!(rt; kept.len(), 4);
    Ok(())
}
