//! What watchers see of what is shown, with ample memory.

ghost use Rattle.std.specs.Prelude.{◌≡◌, ◌≤◌};
ghost use Rattle.gl_model.specs.declared.answers.Detect.TheVariants.{AtBlock};
ghost use Rattle.gl_window.specs.Boards.{Fine, last_epoch};

use crate::{Publisher, WatchFault, Watcher, board_now};
use gl_catalog::Manager;
use gl_table::Detect;
use gl_waits::Board;
use std::alloc::Global;
use std::fmt::Debug;
use std::process::Abort;

/// How many watchers there are at most.
const MOST_WATCHERS: usize = 8;

/// The answer must be the expected one.
fn same<T: PartialEq + Debug + Drop>(rt: &impl Abort, came: T, wanted: T) {
    assert_eq!(rt; came, wanted);
}

/// A board without waits.
fn quiet(rt: &impl Abort, alloc: Global) -> Board
    ensures fine { Fine AtBlock result }
    ensures first { result.epoch ≡ 0 }
{
    let manager = Manager::new(alloc, Detect::AtBlock, 1).expect(rt, "no memory");
    board_now(&manager)
}

/// The same of a later epoch.
fn later(board: Board, epoch: u64) -> Board
    requires { Fine AtBlock board }
    ensures fine { Fine AtBlock result }
    ensures epoch { result.epoch ≡ epoch }
{
    Board { epoch, ..board }
}

/// A publisher that shows this board.
fn publisher(rt: &impl Abort, alloc: Global, board: Board) -> Publisher
    requires { Fine AtBlock board }
    ensures last { last_epoch 0 result.list ≤ board.epoch }
    ensures detect { result.detect ≡ AtBlock }
{
    Publisher::new(alloc, board, Detect::AtBlock).expect(rt, "no memory")
}

/// Shows a board.
fn show(rt: &impl Abort, publisher: &mut Publisher, board: Board)
    requires rises { last_epoch 0 publisher.old.list ≤ board.epoch }
    requires fine { Fine AtBlock board }
    requires detect { publisher.old.detect ≡ AtBlock }
    ensures last { last_epoch 0 publisher.new.list ≤ board.epoch }
    ensures detect { publisher.new.detect ≡ AtBlock }
{
    same(rt, publisher.publish(board), true);
}

/// What a new watcher comes to, with this board as the last.
fn watch(publisher: &mut Publisher, board: Board) -> Result<Watcher, WatchFault>
    requires rises { last_epoch 0 publisher.old.list ≤ board.epoch }
    requires fine { Fine AtBlock board }
    requires detect { publisher.old.detect ≡ AtBlock }
    ensures last { last_epoch 0 publisher.new.list ≤ board.epoch }
    ensures detect { publisher.new.detect ≡ AtBlock }
{
    publisher.watch(board)
}

/// A watcher sees this epoch.
fn sees(rt: &impl Abort, watcher: &mut Watcher, epoch: u64) {
    same(rt, watcher.look().epoch, epoch);
}

#[test]
fn a_look_sees_what_was_shown_last(rt: HostRuntime) {
    let first = quiet(&rt, rt.alloc());
    let mut publisher = publisher(&rt, rt.alloc(), first);
    let watcher = watch(&mut publisher, later(first, 1));
    let mut watcher = watcher.expect(&rt, "no watcher");
    sees(&rt, &mut watcher, 1);
    show(&rt, &mut publisher, later(first, 2));
    sees(&rt, &mut watcher, 2);
    show(&rt, &mut publisher, later(first, 3));
    show(&rt, &mut publisher, later(first, 4));
    sees(&rt, &mut watcher, 4);
    sees(&rt, &mut watcher, 4);
}

/// So many watchers, all of which see this board, and what one more comes to.
fn watch_all(
    rt: &impl Abort,
    alloc: Global,
    publisher: &mut Publisher,
    board: Board,
) -> Vec<Watcher>
    requires rises { last_epoch 0 publisher.old.list ≤ board.epoch }
    requires fine { Fine AtBlock board }
    requires detect { publisher.old.detect ≡ AtBlock }
    ensures last { last_epoch 0 publisher.new.list ≤ board.epoch }
    ensures detect { publisher.new.detect ≡ AtBlock }
{
    let mut watchers = Vec::new(alloc);
    for _watcher in 0..MOST_WATCHERS {
        let watcher = watch(publisher, board).expect(rt, "no watcher");
        watchers.push(watcher).expect(rt, "no memory");
    }
    watchers
}

#[test]
fn eight_watch_and_no_ninth(rt: HostRuntime) {
    let first = quiet(&rt, rt.alloc());
    let mut publisher = publisher(&rt, rt.alloc(), first);
    same(&rt, publisher.is_watched(), false);
    let watchers = watch_all(&rt, rt.alloc(), &mut publisher, first);
    same(&rt, publisher.is_watched(), true);
    let ninth = watch(&mut publisher, first);
    same(&rt, ninth.err(), Some(WatchFault::TooMany));
    drop(watchers);
    same(&rt, publisher.is_watched(), false);
    let next = watch(&mut publisher, first);
    same(&rt, next.is_ok(), true);
}
