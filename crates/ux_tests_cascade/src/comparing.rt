//! The one comparison of a row's answer.

use std::fmt::Debug;
use std::process::Abort;

/// Stops the test where the row of this name has another answer than the one that is wanted.
pub fn compare<T: Copy + Debug + PartialEq>(rt: &impl Abort, name: &str, got: T, want: T) {
    assert_eq!(rt; got, want, "{name}");
}
