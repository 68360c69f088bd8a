//! A trace and a forged one, judged by `verify`.

use crate::telling::tell;
use line_io::FailRead;
use std::alloc::Global;
use trace_check::verify;
use trace_walk::Verdict;

const TRACE: &[u8] =
    b"trace 2 1 0 256 128 4096\n> 0 publish 0/2 new eth0 label 3.0 = 3/17\n< taken\n> 7 retrieve eth0 label\n< found 3/17\n";

// The second reply has another slot.
const FORGED: &[u8] =
    b"trace 2 1 0 256 128 4096\n> 0 publish 0/2 new eth0 label 3.0 = 3/17\n< taken\n> 7 retrieve eth0 label\n< found 3/18\n";

/// Checks that the trace is legal, with two entries, and that the forged one is illegal at line 5; then writes a line.
pub(crate) fn tell_rows(text: &mut Vec<u8>, alloc: Global) -> Option<()> {
    if verify_all(alloc, TRACE) != (Verdict::Legal { length: 2 })
        || verify_all(alloc, FORGED) != Verdict::IllegalAt(5)
    {
        return None;
    }
    tell(text, &[b"a trace is legal, and a forged one isn't\n"])
}

// Judges a trace that comes in reads of seven bytes.
fn verify_all(alloc: Global, trace: &[u8]) -> Verdict {
    verify(alloc, &mut FailRead::new(trace, 0, 7))
}
