//! A crew over a table of its caller's: the table is shared, used and returned.

ghost use Rattle.std.specs.Prelude.{◌≡◌, ◌+◌, ◌*◌, ◌<◌, ◌≤◌, ◌^◌, All, Err, IfErr, IfOk, MatchOption, Ok, sum, vec_capacity, vec_len};
ghost use Rattle.gl_modes.specs.declared.refusal.Refusal.{Refusal as ARefusal};
ghost use Rattle.gl_table.specs.Table.{board_of};
ghost use Rattle.gl_model.specs.declared.answers.Detect.TheVariants.{ByWatcher};
ghost use Rattle.gl_catalog.specs.Manager.{state_of};
ghost use Rattle.gl_crew.specs.Crews.{IsCountOf, IsFaultless, IsSumOf, first_fault, shares_of};

use crate::fault::{CrewFault, first_fault};
use crate::lookout::look_out;
use crate::places::{Room, Served, serve_all};
use crate::work::Work;
use gl_catalog::Manager;
use gl_modes::Refusal;
use gl_shared::{Naming, NotAll, Parts, Share, Shared, Watcher, gather};
use gl_table::Detect;
use std::alloc::Global;
use std::marker::Brand;
use std::sync::Wait;
use std::sync::atomic::{AtomicBool, Ordering};
use std::thread::{Threads, join};

/// How a crew ended.
#[derive(Drop)]
pub struct Ended {
    /// The manager, as its sessions left it.
    pub manager: Manager,
    /// How many commands of the crew were accepted.
    pub count: u64,
    /// By session, from number 1 on, the fault that ended it early.
    pub faults: Vec<Option<CrewFault>>,
}

impl Ended {
    /// How many commands were accepted, unless a session met a fault.
    ///
    /// # Errors
    ///
    /// The fault of the session with the least number.
    pub fn answer(&self) -> Result<u64, CrewFault>
        ensures { MatchOption (first_fault self.now.faults.items) (result ≡ Ok self.now.count) (λ fault. result ≡ Err fault) }
    {
        match first_fault(&self.faults) {
            None => Ok(self.count),
            Some(fault) => Err(fault),
        }
    }
}

/// Runs `sessions` sessions, 1 to 128, of `rounds` rounds of this work over this manager, each in its
/// own thread. If the manager detects deadlocks by a watcher, one more thread looks for them until the
/// sessions have ended, and its settles count too.
///
/// # Errors
///
/// `NoMemory`, and then no session has started.
pub fn crew_over<W: Work + Sync, R: Threads + Wait + Sync>(
    rt: &R,
    alloc: Global,
    manager: Manager,
    work: &W,
    sessions: u32,
    rounds: u32,
) -> Result<Ended, Refusal>
    requires { (0 < sessions) × (sessions ≤ 128) }
    ensures count { IfOk result (λ ended. IsFaultless ended.faults.items → IsCountOf manager.table.detect W.commands sessions rounds ended.count) }
    ensures accepted { IfOk result (λ ended. ended.manager.accepted ≡ manager.accepted + ended.count) }
    ensures sessions { IfOk result (λ ended. vec_len ended.faults ≡ sessions) }
    ensures refused { IfErr result (λ refusal. refusal ≡ ARefusal.NoMemory) }
{
    let detect = manager.detect();
    let parts = Parts::new(rt, alloc, manager, share_count(sessions, detect), 1)?;
    run_crew::<Brand, W, R>(rt, alloc, work, rounds, detect, parts)
}

/// How many shares a crew needs: one for each session and one for a watcher.
fn share_count(sessions: u32, detect: Detect) -> u64
    ensures { result ≡ shares_of sessions detect }
{
    match detect {
        Detect::AtBlock => u64::from(sessions),
        Detect::ByWatcher => u64::from(sessions) + 1,
    }
}

/// Does all rounds over a table of these parts.
fn run_crew<N: Naming + Send + Sync, W: Work + Sync, R: Threads + Wait + Sync>(
    rt: &R,
    alloc: Global,
    work: &W,
    rounds: u32,
    detect: Detect,
    parts: Parts,
) -> Result<Ended, Refusal>
    requires blank { (parts.blank.name ≡ N.name) × (parts.blank.parts ≡ N.parts) }
    requires shares { parts.shares ≡ N.shares }
    requires opening { (parts.manager.accepted ≡ N.opening) × (parts.manager.table.detect ≡ N.detect) }
    requires book { (parts.line.book ≡ N.book) × (board_of (state_of parts.manager) ≡ N.first) }
    ensures count { IfOk result (λ ended. IsFaultless ended.faults.items → IsSumOf detect parts.shares (rounds * W.commands) ended.count) }
    ensures accepted { IfOk result (λ ended. ended.manager.accepted ≡ parts.manager.accepted + ended.count) }
    ensures sessions { IfOk result (λ ended. shares_of (vec_len ended.faults) detect ≡ parts.shares) }
    ensures refused { IfErr result (λ refusal. refusal ≡ ARefusal.NoMemory) }
{
    let (shared, shares, watchers) = Shared::<N>::new(rt, alloc, parts)?;
    let Some(room) = Room::new(alloc, shares.len()) else {
        shared.abandon(rt);
        return Err(Refusal::NoMemory);
    };
    let served = serve_by(rt, &shared, work, rounds, detect, room, shares, watchers);
    Ok(close(rt, shared, served))
}

/// Runs all sessions, with this way of detection.
fn serve_by<N: Naming + Send + Sync, W: Work + Sync, R: Threads + Wait + Sync>(
    rt: &R,
    shared: &Shared<N>,
    work: &W,
    rounds: u32,
    detect: Detect,
    room: Room<N>,
    shares: Vec<Share<N>>,
    watchers: Vec<Watcher<N>>,
) -> Served<N>
    requires few { (0 < vec_len shares) × (vec_len shares < 130) }
    requires new { All (λ n. n ≡ 0) shares.items }
    requires watchers { 0 < vec_len watchers }
    requires room { vec_len shares ≤ room.count }
    ensures each { (vec_len result.shares ≡ vec_len shares) × (shares_of (vec_len result.faults) detect ≡ vec_len shares) }
    ensures count { IsFaultless result.faults.items → IsSumOf detect (vec_len shares) (rounds * W.commands) (sum result.shares.items) }
{
    match detect {
        Detect::AtBlock => serve_all(rt, shared, work, rounds, room, shares),
        Detect::ByWatcher => serve_watched(rt, shared, work, rounds, room, shares, watchers),
    }
}

/// Runs all sessions and a watcher, which has the last share.
fn serve_watched<N: Naming + Send + Sync, W: Work + Sync, R: Threads + Wait + Sync>(
    rt: &R,
    shared: &Shared<N>,
    work: &W,
    rounds: u32,
    room: Room<N>,
    mut shares: Vec<Share<N>>,
    mut watchers: Vec<Watcher<N>>,
) -> Served<N>
    requires few { (0 < vec_len shares) × (vec_len shares < 130) }
    requires new { All (λ n. n ≡ 0) shares.items }
    requires watchers { 0 < vec_len watchers }
    requires room { vec_len shares ≤ room.count }
    ensures each { (vec_len result.shares ≡ vec_len shares) × (vec_len result.faults + 1 ≡ vec_len shares) }
    ensures count { IsFaultless result.faults.items → IsSumOf ByWatcher (vec_len shares) (rounds * W.commands) (sum result.shares.items) }
{
    let Some(last) = shares.pop() else {
        unreachable!()
    };
    let Some(watcher) = watchers.pop() else {
        unreachable!()
    };
    let (last, mut served) = serve_beside(rt, shared, work, rounds, room, shares, last, watcher);
    served.shares.push_reserved(last);
    served
}

/// Runs all sessions, and beside them the watcher.
fn serve_beside<N: Naming + Send + Sync, W: Work + Sync, R: Threads + Wait + Sync>(
    rt: &R,
    shared: &Shared<N>,
    work: &W,
    rounds: u32,
    room: Room<N>,
    shares: Vec<Share<N>>,
    last: Share<N>,
    watcher: Watcher<N>,
) -> (Share<N>, Served<N>)
    requires few { vec_len shares < 2 ^ 31 }
    requires new { All (λ n. n ≡ 0) shares.items }
    requires room { vec_len shares ≤ room.count }
    ensures each { (vec_len result.1.shares ≡ vec_len shares) × (vec_len result.1.faults ≡ vec_len shares) }
    ensures served { IsFaultless result.1.faults.items → All (λ n. n ≡ rounds * W.commands) result.1.shares.items }
    ensures room { room.count ≤ vec_capacity result.1.shares }
{
    let ended = AtomicBool::new(false);
    let flag = &ended;
    join(
        rt,
        move || look_out(rt, shared, last, watcher, flag),
        move || -> Served<N>
            requires few { vec_len shares < 2 ^ 31 }
            requires new { All (λ n. n ≡ 0) shares.items }
            requires room { vec_len shares ≤ room.count }
            ensures each { (vec_len result.shares ≡ vec_len shares) × (vec_len result.faults ≡ vec_len shares) }
            ensures served { IsFaultless result.faults.items → All (λ n. n ≡ rounds * W.commands) result.shares.items }
            ensures room { room.count ≤ vec_capacity result.shares }
        {
            let served = serve_all(rt, shared, work, rounds, room, shares);
            flag.store(true, Ordering::SeqCst);
            served
        },
    )
}

/// The end of a crew whose shares are all returned.
fn close<N: Naming, R: Wait>(rt: &R, shared: Shared<N>, served: Served<N>) -> Ended
    requires all { vec_len served.shares ≡ N.shares }
    ensures count { result.count ≡ sum served.shares.items }
    ensures accepted { result.manager.accepted ≡ N.opening + result.count }
    ensures faults { result.faults ≡ served.faults }
{
    let Served { shares, faults } = served;
    match gather(rt, shared, shares) {
        Ok(closed) => Ended {
            manager: closed.manager,
            count: closed.book,
            faults,
        },
        Err(NotAll { shared, shares: _ }) => {
            shared.abandon(rt);
            unreachable!()
        }
    }
}
