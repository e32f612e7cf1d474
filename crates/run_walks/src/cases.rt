// How a case that is not as it is written ends its test.
use std::process::Abort;

/// Ends the test where the case of this name is not met.
pub(crate) fn expect<R: Abort>(rt: &R, name: &str, is_met: bool) {
    assert!(rt; is_met, "{name}");
}
