//! What the speed comparisons of `bench/` call from Rust.
#![tactic(auto)]

ghost use Rattle.bench.specs.Counted.{Counts};

use session::reader::read;
use std::alloc::Global;

pub mod channels;

/// Reads a session file, and answers how many links and steps it has together; 0 where it was not accepted.
#[unsafe(no_mangle)]
pub extern "C" fn bench_read(heap: Global, bytes: &[u8]) -> usize
    ensures { Counts bytes.now result }
{
    read(heap, bytes).map_or(0, |session| {
        session.mesh.links.len().wrapping_add(session.steps.len())
    })
}
