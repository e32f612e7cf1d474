// How a case that is not as it is written ends its test.
use std::alloc::AllocError;
use std::process::Abort;

/// Ends the test where the case of this name is not met, or memory was refused.
pub(crate) fn expect(rt: &impl Abort, name: &str, is_met: Result<bool, AllocError>) {
    assert!(rt; matches!(is_met, Ok(true)), "{name}");
}
