//! The files that are read.

use std::fs;
use std::io::{self, Read};

/// Reads a file, but no more of it than so many bytes.
pub(crate) fn read(rt: &HostRuntime, file: &str, most: u64) -> io::Result<Vec<u8>> {
    let mut bytes = Vec::new(rt.alloc());
    fs::open(rt, file)?.take(most).read_to_end(&mut bytes)?;
    Ok(bytes)
}
