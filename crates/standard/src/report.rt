//! What is printed of a session file that was read: the session in the standard order, or its fault.
ghost use Rattle.std.specs.Prelude.{◌≡◌, length, IfOk};
ghost use Rattle.format.specs.Content.{standard};
ghost use Rattle.session.specs.Seen.{content, judgement};
ghost use Rattle.format.specs.Verdict.{Judged, accepted};
ghost use Rattle.standard.specs.Report.{Written, report_text};

use crate::put::{length_of, write_whole};
use session::session::Session;
use std::alloc::{AllocError, Global};
use vocab::faults::ReadFault;

/// The length of a session's text.
pub fn session_length(session: &Session) -> usize
    ensures { result ≡ length (standard (content session.now)) }
{
    length_of(session)
}

/// Writes a session in the standard column order, and answers the length; none where the output is too short, which
/// then stays as it was. Reading what was written gives the same session.
pub fn write(session: &Session, out: &mut [u8]) -> Option<usize>
    ensures writes { Written (standard (content session.now)) out.old out.new result }
    ensures reads_back { Judged (standard (content session.now)) (accepted (content session.now)) }
{
    write_whole(session, out)
}

/// The length of what is printed of an answer of the reader.
#[tactic(auto, using(crate::proofs::Sessions::report_short))]
pub fn report_length(answer: &Result<Session, ReadFault>) -> usize
    ensures { result ≡ length (report_text (judgement answer.now)) }
{
    length_of(answer)
}

/// Writes what is printed of an answer of the reader, and answers the length; none where the output is too short,
/// which then stays as it was.
#[tactic(auto, using(crate::proofs::Sessions::report_short))]
pub fn report(answer: &Result<Session, ReadFault>, out: &mut [u8]) -> Option<usize>
    ensures { Written (report_text (judgement answer.now)) out.old out.new result }
{
    write_whole(answer, out)
}

/// What is printed of an answer of the reader, in memory of its own.
pub fn printed(heap: Global, answer: &Result<Session, ReadFault>) -> Result<Vec<u8>, AllocError>
    ensures { IfOk result (λ text. text.items ≡ report_text (judgement answer.now)) }
{
    let mut text = vec![in heap; 0u8; report_length(answer)]?;
    // The text fits: its length was asked for.
    let _ = report(answer, &mut text);
    Ok(text)
}
