//! Several managers that work as one: where something may rest in a part, and who takes it up. The calls look
//! at no manager. They answer 1 or 0, since each end of a transaction in a part asks the first.

ghost use Rattle.std.specs.Prelude.{◌≡◌, ◌==◌, if◌then◌else◌, map, not};
ghost use Rattle.gl_parts.specs.Resting.{takes_up};
ghost use Rattle.gl_c.specs.questions.Passing.{mark_id};
ghost use Rattle.gl_c.specs.questions.Rests.{TellsMayRest};

use crate::questions::passing::Mark;
use gl_parts::{may_rest, takes_up};

/// Whether a transaction that ends in a part with these marks, by a commit unless `commits` is 0, may leave
/// locks there that rest for the next one of its slot, at most so many.
#[unsafe(no_mangle)]
pub extern "C" fn bs_call_may_rest(commits: u32, most: u64, marks: &[Mark]) -> u32
    ensures { TellsMayRest (not (commits == 0)) most (map mark_id marks.now) result }
{
    u32::from(may_rest(commits != 0, most, marks))
}

/// Whether a transaction of this age takes up what rests for its slot.
#[unsafe(no_mangle)]
pub extern "C" fn bs_call_takes_up(age: u64, since: u64) -> u32
    ensures { result ≡ (if takes_up age since then 1 else 0) }
{
    u32::from(takes_up(age, since))
}
