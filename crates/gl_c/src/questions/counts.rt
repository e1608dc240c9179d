//! What a manager has done, in the caller's memory.

ghost use Rattle.std.specs.Prelude.{◌≡◌};
ghost use Rattle.gl_c.specs.questions.Counts.{counts_of};

use gl_catalog::Counters;

/// What a manager has done since it was made, in commands that it accepted. Each count stops at the
/// greatest `u64`; `gl_catalog::Counters` says what each one counts.
#[repr(C)]
#[derive(Clone, Copy)]
pub struct Counts {
    /// All commands that were neither refused nor questions.
    pub accepted: u64,
    pub granted: u64,
    pub waited: u64,
    pub conversions: u64,
    pub granted_later: u64,
    pub victims: u64,
    pub moved: u64,
    pub gone: u64,
    pub escalations: u64,
    pub released_children: u64,
    pub most_waiting: u64,
    pub longest_queue: u64,
    pub passed: u64,
}

impl Counts {
    pub(crate) fn of(accepted: u64, counters: Counters) -> Counts
        ensures { result ≡ counts_of accepted counters }
    {
        Counts {
            accepted,
            granted: counters.granted,
            waited: counters.waited,
            conversions: counters.conversions,
            granted_later: counters.granted_later,
            victims: counters.victims,
            moved: counters.moved,
            gone: counters.gone,
            escalations: counters.escalations,
            released_children: counters.released_children,
            most_waiting: counters.most_waiting,
            longest_queue: counters.longest_queue,
            passed: counters.passed,
        }
    }
}
