//! The table that sessions share behind one latch: how it is made, and how it ends.

ghost use Rattle.std.specs.Prelude.{◌≡◌, ◌+◌, ◌≤◌, ◌<◌, ◌∷◌, [], IfErr, IfOk, All, MatchResult, vec_len, sum, true, false, Some, ◌≢◌};
ghost use Rattle.gl_modes.specs.declared.refusal.Refusal.{Refusal as ARefusal};
ghost use Rattle.gl_table.specs.Table.{board_of};
ghost use Rattle.gl_catalog.specs.Manager.{IsLawfulManager, state_of};
ghost use Rattle.gl_window.specs.Rules.{head_of};
ghost use Rattle.gl_shared.specs.State.{GuardedView};
ghost use Rattle.gl_shared.specs.Ties.{IsOf, tie_of};

use crate::boards::BoardWriter;
use crate::guarded::Guarded;
use crate::naming::Naming;
use crate::parts::Parts;
use crate::publisher::Publisher;
use crate::rule::Ties;
use crate::share::Share;
use crate::wakes::Wakes;
use crate::watcher::Watcher;
use gl_catalog::{Counters, Manager};
use gl_modes::Refusal;
use gl_window::Line;
use std::alloc::{AllocError, Global};
use std::marker::PhantomData;
use std::sync::{Mutex, MutexGuard, Wait, ledger};

/// A table that sessions share. The latch is its one mutex: its holder has the manager, the boxes and
/// the side that publishes, for one command or one list.
pub struct Shared<N: Naming> {
    pub(crate) latch: Mutex<Guarded<N>>,
    pub(crate) wakes: Wakes,
    pub(crate) shares: u64,
    ghost counted: { (shares ≡ N.shares) × (0 < shares) },
}

// `count` shares, of one part each.
fn cut_shares<N: Naming>(
    alloc: Global,
    mut rest: ledger::Share<N>,
    count: u64,
) -> Result<Vec<Share<N>>, AllocError>
    requires parts { rest.parts ≡ count }
    requires amount { rest.amount ≡ 0 }
    ensures { IfOk result (λ v. (vec_len v ≡ count) × All (λ n. n ≡ 0) v.items) }
{
    let mut shares = Vec::new(alloc);
    for _i in 0..count {
        let token = rest.split_off(1, 0);
        shares.push(Share { token })?;
    }
    Ok(shares)
}

// A watcher that knows the first list.
fn watch<N: Naming>(writer: &mut BoardWriter, line: &Line) -> Result<Watcher<N>, AllocError>
    requires of { IsOf N.book N.detect N.first line.now }
    requires tie { writer.old.desk.place.me.0.client ≡ Some (tie_of line.now) }
    ensures kept { (writer.new.desk.place.me.0.client ≡ writer.old.desk.place.me.0.client) × (writer.new.desk.shown ≡ writer.old.desk.shown)
        × (writer.new.log ≡ writer.old.log) × (writer.new.behind ≡ writer.old.behind) }
    ensures watcher { IfOk result (λ w. w ≡ line.now.list) }
{
    let last = line.again()?;
    let mut reader = writer.factory().reader()?;
    reader.learn::<Ties>(writer.tell::<Ties>());
    Ok(Watcher {
        reader: Some(reader),
        last,
        of: PhantomData,
    })
}

// `count` such watchers.
fn watch_all<N: Naming>(
    alloc: Global,
    writer: &mut BoardWriter,
    line: &Line,
    count: usize,
) -> Result<Vec<Watcher<N>>, AllocError>
    requires of { IsOf N.book N.detect N.first line.now }
    requires tie { writer.old.desk.place.me.0.client ≡ Some (tie_of line.now) }
    ensures kept { (writer.new.desk.place.me.0.client ≡ writer.old.desk.place.me.0.client) × (writer.new.desk.shown ≡ writer.old.desk.shown)
        × (writer.new.log ≡ writer.old.log) × (writer.new.behind ≡ writer.old.behind) }
    ensures watchers { IfOk result (λ v. (vec_len v ≡ count) × All (λ w. w ≡ line.now.list) v.items) }
{
    let mut watchers = Vec::new(alloc);
    for _i in 0..count {
        watchers.push(watch(writer, line)?)?;
    }
    Ok(watchers)
}

impl<N: Naming> Shared<N> {
    /// The table with its name, its shares and its watchers. The only refusal is `NoMemory`.
    pub fn new<R: Wait>(
        rt: &R,
        alloc: Global,
        parts: Parts,
    ) -> Result<(Shared<N>, Vec<Share<N>>, Vec<Watcher<N>>), Refusal>
        requires name { parts.blank.name ≡ N.name }
        requires parts { parts.blank.parts ≡ N.parts }
        requires shares { parts.shares ≡ N.shares }
        requires opening { (parts.manager.accepted ≡ N.opening) × (parts.manager.table.detect ≡ N.detect) }
        requires book { (parts.line.book ≡ N.book) × (board_of (state_of parts.manager) ≡ N.first) }
        ensures shares { IfOk result (λ t. (vec_len t.1 ≡ N.shares) × All (λ n. n ≡ 0) t.1.items) }
        ensures watchers { IfOk result (λ t. (vec_len t.2 ≡ parts.watchers) × All (λ w. w ≡ board_of (state_of parts.manager) ∷ []) t.2.items) }
        ensures refused { IfErr result (λ refusal. refusal ≡ ARefusal.NoMemory) }
    {
        let Parts {
            manager,
            blank,
            shares: count,
            watchers: looking,
            head,
            line,
            mut writer,
            telling,
        } = parts;
        let (book, rest) = blank.open::<N>();
        let Ok(shares) = cut_shares(alloc, rest, count) else {
            writer.take(rt);
            return Err(Refusal::NoMemory);
        };
        let Ok(watchers) = watch_all(alloc, &mut writer, &line, looking) else {
            writer.take(rt);
            return Err(Refusal::NoMemory);
        };
        let publisher = Publisher::new(alloc, head, writer);
        let shared = Shared {
            latch: Mutex::new(Guarded::new(manager, book, publisher, telling)),
            wakes: Wakes::new(),
            shares: count,
        };
        Ok((shared, shares, watchers))
    }

    /// What the table's manager has done since it was made, all of one moment. It holds the latch for
    /// the time of a copy, and takes no memory.
    pub fn counters<R: Wait>(&self, rt: &R) -> Counters
        ensures { (g : GuardedView) × IsLawfulManager g.manager × (g.manager.accepted ≡ N.opening + g.book) × (result ≡ g.manager.counters) }
    {
        let guard = self.latch.lock(rt);
        guard.law();
        let counters = guard.counters();
        MutexGuard::unlock(guard);
        counters
    }

    /// Ends a table whose shares are not returned.
    pub fn abandon<R: Wait>(self, rt: &R) {
        let Shared {
            latch,
            wakes: _,
            shares: _,
        } = self;
        let Guarded {
            manager: _,
            served: _,
            book: _,
            boxes: _,
            publisher,
            telling: _,
            waited: _,
        } = latch.into_inner();
        publisher.end(rt);
    }
}

/// What remains of a table once all shares are returned.
#[derive(Drop)]
pub struct Closed {
    pub manager: Manager,
    pub book: u64,
}

/// A share is missing.
pub struct NotAll<N: Naming> {
    pub shared: Shared<N>,
    pub shares: Vec<Share<N>>,
}

// The sum of the shares, as one token.
fn merge_all<N: Naming>(mut all: ledger::Share<N>, shares: Vec<Share<N>>) -> ledger::Share<N>
    ensures parts { result.parts ≡ all.parts + vec_len shares }
    ensures amount { result.amount ≡ all.amount + sum shares.items }
{
    for share in shares {
        let Share { token } = share;
        all.merge(token);
    }
    all
}

/// The table's manager and the count of its book, if each share is returned.
pub fn gather<N: Naming, R: Wait>(
    rt: &R,
    shared: Shared<N>,
    mut shares: Vec<Share<N>>,
) -> Result<Closed, NotAll<N>>
    ensures { MatchResult result
        (λ c. (vec_len shares ≡ N.shares) × (c.book ≡ sum shares.items) × (c.manager.accepted ≡ N.opening + c.book))
        (λ n. (vec_len shares ≢ N.shares) × (n.shares ≡ shares)) }
{
    if shares.len() as u64 != shared.shares {
        return Err(NotAll { shared, shares });
    }
    let Some(last) = shares.pop() else {
        unreachable!()
    };
    let Share { token } = last;
    let mut all = merge_all(token, shares);
    let Shared {
        latch,
        wakes: _,
        shares: _,
    } = shared;
    let Guarded {
        manager,
        served,
        mut book,
        boxes: _,
        publisher,
        telling: _,
        waited: _,
    } = latch.into_inner();
    book.audit(&mut all);
    publisher.end(rt);
    Ok(Closed {
        manager,
        book: served,
    })
}
