//! What is printed of a source of bytes.
ghost use Rattle.std.specs.Prelude.{ℕ, List, IfOk, IfSome};
ghost use Rattle.standard.specs.Report.{Reported};

use crate::report::printed;
use session::reader::MAX_BYTES;
use session::session::Room;
use std::alloc::{AllocError, Global};
use std::io::{self, Read};

// One byte more than a session file may have is enough to know that a file is too long.
const LIMIT: u64 = MAX_BYTES as u64 + 1;

// Want of memory, in the words that it has by itself: as an `io::Error` it would have others.
fn wanting(_error: AllocError) -> io::Error {
    io::Error::new(io::ErrorKind::OutOfMemory, "memory allocation failed")
}

/// Reads a session file from a source, and answers what is printed of it: the session in the standard order, or its fault.
/// The clause `source` speaks of sources whose bytes are known, such as slices.
pub fn answered<R: Read + Drop>(heap: Global, source: R) -> io::Result<Vec<u8>>
    ensures file { IfOk result (λ text. (bytes : List ℕ) × Reported bytes text.items) }
    ensures source { IfOk result (λ text. IfSome (R.Read.remaining source) (λ bytes. Reported bytes text.items)) }
{
    let room = Room::reserve(heap).map_err(wanting)?;
    let mut bytes = Vec::new(heap);
    source.take(LIMIT).read_to_end(&mut bytes)?;
    let answer = room.read(&bytes);
    // The answer holds none of the bytes, and the printed text may be as long as they are.
    drop(bytes);
    let text = printed(heap, &answer).map_err(wanting)?;
    Ok(text)
}
