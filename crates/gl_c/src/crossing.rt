//! Values that C passes from one thread to another.

ghost use Rattle.std.specs.Prelude.{◌≡◌};

use std::marker::Send;

/// Passes a value to the thread that receives it.
pub(crate) fn hand_over<T: Send>(value: T) -> T
    ensures { result ≡ value }
{
    value
}
