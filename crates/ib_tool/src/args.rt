//! The words of the command line.

use std::alloc::AllocError;
use std::env;
use std::io::ErrorKind;

/// The words that follow the program's own name, or none where one of them is not text: no words are no form.
pub fn words(rt: &HostRuntime) -> Result<Vec<String>, AllocError> {
    let mut words = Vec::new(rt.alloc());
    match env::args(rt) {
        Ok(args) => {
            for word in args.skip(1) {
                words.push(word)?;
            }
            Ok(words)
        }
        Err(error) if error.kind() == ErrorKind::InvalidData => Ok(words),
        Err(_) => Err(AllocError),
    }
}
