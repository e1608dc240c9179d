//! The rounds of a crew's sessions.

ghost use Rattle.std.specs.Prelude.{◌≡◌};

use crate::wanted::{allowed, same};
use gl_catalog::Manager;
use gl_crew::{CrewFault, Work, crew_over};
use gl_shared::{Naming, Session};
use gl_table::Detect;
use std::alloc::Global;
use std::process::Abort;
use std::sync::{Mutex, MutexGuard, Wait};
use std::test::Fail;
use std::thread::Threads;

/// How many sessions there are.
const SESSIONS: usize = 3;

/// How many rounds each does.
const ROUNDS: u32 = 4;

/// Work that counts its rounds, and fails for a session or a round out of order.
struct Counting {
    /// By session, from number 1 on, its last round.
    last: Mutex<[u32; SESSIONS]>,
}

/// Whether the round is the next of its session.
fn is_next(last: &mut [u32; SESSIONS], number: u32, round: u32) -> bool {
    let Some(place) = number.checked_sub(1) else {
        return false;
    };
    let Some(before) = last.get_mut(place as usize) else {
        return false;
    };
    let wanted = before.saturating_add(1);
    *before = round;
    round == wanted
}

impl Work for Counting {
    ghost commands = { 0 };

    fn round<N: Naming, R: Wait>(
        &self,
        rt: &R,
        _session: &mut Session<'_, N>,
        number: u32,
        round: u32,
    ) -> Result<(), CrewFault> {
        let mut last = self.last.lock(rt);
        let next = is_next(&mut last, number, round);
        MutexGuard::unlock(last);
        if next { Ok(()) } else { Err(CrewFault::Gate) }
    }
}

/// Each session does its rounds from the first to the last, in order.
fn rounds_in_turn<R: Threads + Wait + Abort + Sync>(
    rt: &R,
    alloc: Global,
    detect: Detect,
) -> Result<(), Fail> {
    let manager = allowed(rt, Manager::new(alloc, detect, 8));
    let work = Counting {
        last: Mutex::new([0; SESSIONS]),
    };
    let ended = crew_over(rt, alloc, manager, &work, SESSIONS as u32, ROUNDS);
    let ended = allowed(rt, ended);
    same(rt, ended.faults.as_slice(), [None; SESSIONS].as_slice());
    let Counting { last } = work;
    same(rt, last.into_inner(), [ROUNDS; SESSIONS]);
    Ok(())
}

#[test]
fn sessions_of_a_crew_do_their_rounds_in_turn(rt: HostRuntime) -> Result<(), Fail> {
    rounds_in_turn(&rt, rt.alloc(), Detect::AtBlock)?;
    rounds_in_turn(&rt, rt.alloc(), Detect::ByWatcher)
}
