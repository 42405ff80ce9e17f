//! Lines of a live run, and the lines that answer them.
ghost use Rattle.std.specs.Prelude.{◌≡◌, IfOk, Ok};
ghost use Rattle.lay_point.specs.Memory.{IsAnswer};
ghost use Rattle.job_text.specs.Live.{live_line, odd_text, step_line};
ghost use Rattle.job_text.specs.Replies.{reply_text};
ghost use Rattle.job_text.specs.Words.{words, words_of};

use crate::order_section::session_of;
use crate::question::{Question, question_of};
use crate::reply_text::put_reply;
use crate::step_line::step_of;
use crate::text_out::TextOut;
use crate::words::{is_blank, split_word};
use byte_io::{OutBuffer, content};
use lay_point::NoMemory;
use session_steps::{Reply, Step as SessionStep};
use std::alloc::Global;
use std::io::Write as _;

/// What a line of a live run says.
#[derive(Debug, Drop)]
pub enum LiveLine {
    /// No word.
    Blank,
    /// A step of a session from 1 to 64.
    Step(u8, SessionStep),
    /// That the layout is to be written.
    Write,
    /// A question, whose answer changes nothing.
    Ask(Question),
    /// None of these.
    Unknown,
}

/// Returns what the line says: nothing, `SESSION STEP` with a step as in a job, `%write`, or a question.
///
/// # Errors
///
/// `NoMemory`, if an allocation fails.
#[tactic(auto, unfolding(crate::specs::Live::live_line))]
pub fn live_line(alloc: Global, line: &[u8]) -> Result<LiveLine, NoMemory>
    ensures { IsAnswer (record {}) result (Ok (live_line (words_of line.now))) }
{
    let Some((word, rest)) = split_word(content(line)) else {
        return Ok(LiveLine::Blank);
    };
    if word == "%write".as_bytes() && is_blank(rest) {
        return Ok(LiveLine::Write);
    }
    if let Some(question) = question_of(word, rest) {
        return Ok(LiveLine::Ask(question));
    }
    step_line(alloc, session_of(word), rest)
}

/// Returns the step of the session that the words say, where they say one and there can be such a session.
fn step_line(alloc: Global, session: u8, line: &[u8]) -> Result<LiveLine, NoMemory>
    ensures { IsAnswer (record {}) result (Ok (step_line session (words line.now))) }
{
    if session == 0 {
        return Ok(LiveLine::Unknown);
    }
    match step_of(alloc, line)? {
        Some(step) => Ok(LiveLine::Step(session, step)),
        None => Ok(LiveLine::Unknown),
    }
}

/// Returns the comment that answers a step of a session with this reply.
///
/// # Errors
///
/// `NoMemory`, if an allocation fails.
pub fn reply_line(alloc: Global, session: u8, step: u64, reply: &Reply) -> Result<Vec<u8>, NoMemory>
    ensures { IfOk result (λ line. line.items ≡ reply_text session step reply.now) }
{
    let mut out = TextOut::new(alloc);
    let mut buffer = OutBuffer::new();
    put_reply(&mut out, &mut buffer, u64::from(session), step, reply);
    buffer.flush(&mut out).map_err(|_| NoMemory)?;
    Ok(out.into_bytes())
}

/// Returns the comment that says that the line of this number, counted from 1, is odd.
///
/// # Errors
///
/// `NoMemory`, if an allocation fails.
#[tactic(auto, unfolding(crate::specs::Live::odd_text))]
pub fn unknown_line(alloc: Global, number: u64) -> Result<Vec<u8>, NoMemory>
    ensures { IfOk result (λ line. line.items ≡ odd_text number) }
{
    let mut line = Vec::new(alloc);
    write!(line, "(fault line {number});\n").map_err(|_| NoMemory)?;
    Ok(line)
}
