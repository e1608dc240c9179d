//! A table is closed after each share is returned, and not before.

ghost use Rattle.std.specs.Prelude.{◌≡◌};
ghost use Rattle.gl_table.specs.Table.{board_of};
ghost use Rattle.gl_catalog.specs.Manager.{state_of};

use crate::wanted::same;
use gl_catalog::{Answer, Command, Manager};
use gl_shared::{Naming, NotAll, Parts, Session, Share, Shared, gather};
use gl_table::Detect;
use std::alloc::Global;
use std::marker::Brand;
use std::process::Abort;
use std::sync::Wait;
use std::test::Fail;

/// Makes a root with this share.
fn makes_root<N: Naming, R: Wait + Abort>(rt: &R, table: &Shared<N>, share: Share<N>) -> Share<N> {
    let mut session = Session::new(table, share);
    let reply = session.ask(rt, Command::Inner { parents: &[] });
    assert!(rt; matches!(reply.answer, Answer::Node(_)));
    session.end()
}

/// Closes the table: this many commands were accepted.
fn closes<N: Naming, R: Wait + Abort>(
    rt: &R,
    shared: Shared<N>,
    shares: Vec<Share<N>>,
    book: u64,
) -> Result<(), Fail> {
    match gather(rt, shared, shares) {
        Ok(closed) => {
            same(rt, closed.book, book);
            same(rt, closed.manager.accepted(), book);
            Ok(())
        }
        Err(NotAll { shared, shares: _ }) => {
            shared.abandon(rt);
            Err(Fail::from("a share is missing"))
        }
    }
}

/// If one share is missing, the table and the other two are returned, and can still be used. With it
/// the table is closed.
fn keeps_one_back<N: Naming, R: Wait + Abort>(
    rt: &R,
    alloc: Global,
    parts: Parts,
) -> Result<(), Fail>
    requires name { parts.blank.name ≡ N.name }
    requires parts { parts.blank.parts ≡ N.parts }
    requires shares { parts.shares ≡ N.shares }
    requires opening { (parts.manager.accepted ≡ N.opening) × (parts.manager.table.detect ≡ N.detect) }
    requires book { (parts.line.book ≡ N.book) × (board_of (state_of parts.manager) ≡ N.first) }
{
    let Ok((shared, mut shares, watchers)) = Shared::<N>::new(rt, alloc, parts) else {
        return Err(Fail::from("no memory"));
    };
    drop(watchers);
    let Some(kept) = shares.pop() else {
        shared.abandon(rt);
        return Err(Fail::from("no share"));
    };
    let kept = makes_root(rt, &shared, kept);
    let Err(NotAll { shared, mut shares }) = gather(rt, shared, shares) else {
        return Err(Fail::from("closed too soon"));
    };
    same(rt, shares.len(), 2);
    if let Some(share) = shares.pop() {
        let _ = shares.push(makes_root(rt, &shared, share));
    }
    let _ = shares.push(kept);
    closes(rt, shared, shares, 2)
}

/// The same with any runtime.
fn keep_back<R: Wait + Abort>(rt: &R, alloc: Global, detect: Detect) -> Result<(), Fail> {
    let Ok(manager) = Manager::new(alloc, detect, 128) else {
        return Err(Fail::from("no memory"));
    };
    match Parts::new(rt, alloc, manager, 3, 1) {
        Ok(parts) => keeps_one_back::<Brand, R>(rt, alloc, parts),
        Err(_) => Err(Fail::from("no memory")),
    }
}

#[test]
fn a_table_is_closed_with_all_its_shares(rt: HostRuntime) -> Result<(), Fail> {
    keep_back(&rt, rt.alloc(), Detect::AtBlock)?;
    keep_back(&rt, rt.alloc(), Detect::ByWatcher)
}
