//! The comparison that the tests make.

use std::fmt::Debug;
use std::process::Abort;

/// Ends the test, and shows both, where what it got is not what it wanted. `assert_eq!` written out in each test is most of what is
/// to be proved of it; here it stands once. It is in no library, as no function of one may end the process.
pub fn assert_equal<T: PartialEq + Debug>(rt: &impl Abort, got: &T, wanted: &T) {
    assert_eq!(rt; *got, *wanted);
}
