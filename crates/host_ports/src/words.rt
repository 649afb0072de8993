//! The words of a call of a program.

use std::alloc::{AllocError, Global};
use std::env;
use std::io::ErrorKind;

/// The words of the call, without the program's own name. Where one is not UTF-8 there are none, and to have none is as bad.
pub fn given_words(rt: HostRuntime) -> Result<Vec<String>, AllocError> {
    let mut words = Vec::new(rt.alloc());
    match env::args(&rt) {
        Ok(given) => {
            for word in given.skip(1) {
                words.push(word)?;
            }
            Ok(words)
        }
        Err(e) if e.kind() == ErrorKind::OutOfMemory => Err(AllocError),
        Err(_) => Ok(words),
    }
}
