//! What is made is what is made where nothing is refused.
use std::alloc::AllocError;
use std::process::Abort;

/// A text that is made is this one.
pub fn assert_same(rt: &impl Abort, answer: Result<Vec<u8>, AllocError>, whole: &[u8]) {
    if let Ok(text) = answer {
        assert!(rt; text.as_slice() == whole);
    }
}
