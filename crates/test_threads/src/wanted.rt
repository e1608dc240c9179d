//! Expected values are compared in one function, since each comparison makes the proof of a test
//! longer.

use gl_modes::Refusal;
use std::fmt::Debug;
use std::process::Abort;

/// The value must be the expected one.
pub fn same<T: PartialEq + Debug + Drop>(rt: &impl Abort, came: T, wanted: T) {
    assert_eq!(rt; came, wanted);
}

/// The answer, which must be no refusal.
pub fn allowed<T: Drop>(rt: &impl Abort, answer: Result<T, Refusal>) -> T {
    answer.expect(rt, "a call is refused")
}
