//! A refusal as a comment.
ghost use Rattle.byte_io.specs.Buffered.{Buffered};
ghost use Rattle.live_questions.specs.Answers.{refusal_line};

use byte_io::{Out, OutBuffer};
use job_text::put_refusal;
use session_steps::StepFault;

/// Puts the line of a refusal.
pub(crate) fn put_refusal_line<O: Out>(out: &mut O, buffer: &mut OutBuffer, fault: StepFault)
    ensures { Buffered O.written O.failures out.old buffer.old out.new buffer.new
        (refusal_line fault) }
{
    buffer.put_byte(out, b'(');
    put_refusal(out, buffer, fault);
    buffer.put(out, b");\n");
}
