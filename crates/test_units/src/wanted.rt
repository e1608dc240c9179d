//! Expected values are compared in one function, since each comparison makes the proof of a test
//! longer.

use std::fmt::Debug;
use std::process::Abort;

/// The value must be the expected one.
pub(crate) fn same<T: PartialEq + Debug + Drop>(rt: &impl Abort, came: T, wanted: T) {
    assert_eq!(rt; came, wanted);
}
