//! The command line.
//!
//! `clap` decides which words are valid, but its contract doesn't tie a flag to a word. So `asks`
//! looks for each option among the words once more, and the clauses of `launch` say which were
//! given.
ghost use Rattle.std.specs.Prelude.{◌≡◌, ◌≤◌, ◌<◌, ◌⊎◌, ◌||◌, IfErr, IfOk, false, true, vec_len};
ghost use Rattle.std.specs.List.{list_any};
ghost use Rattle.masklay.specs.declared.command_line.OptionsFault.TheVariants.{Clap};
ghost use Rattle.masklay.specs.declared.command_line.Mode.TheVariants.{Job};
ghost use Rattle.live_run.specs.Devices.{devices, observed_by};
ghost use Rattle.masklay.specs.Launch.{
  EndsEarly,
  IsModeOf,
  Runs,
  asked_in,
  asks,
  asks_beside_live,
  asks_to_live,
  is_live_alone,
  is_option,
  nothing_asked,
  writing,
};
ghost use Rattle.masklay.specs.Run.{IsRun};
ghost use Rattle.masklay.specs.Telling.{MayReport};

use crate::arguments::command;
use crate::program::{LiveOptions, Options, Status, live, put, put_memory, run};
use band_workers::Workers;
use byte_io::{In, Out};
use clap::Error;
use clap::error::ErrorKind;
use live_run::{Journal, Showing};
use std::alloc::Global;
use std::sync::Wait;
use std::thread::Threads;
use std::{env, io};

/// What is wrong with a word that isn't UTF-8.
const NOT_UTF_8: &[u8] =
    b"error: invalid UTF-8 was detected in an argument\n\nFor more information, try '--help'.\n";

/// What is wrong with a number of workers.
const BAD_WORKERS: &[u8] =
    b"error: the number of workers is from 1 to 64\n\nFor more information, try '--help'.\n";

/// What is wrong with an option beside `--live`.
const LIVE_ALONE: &[u8] =
    b"error: '--live' can't be used with '--threaded', '--cif' or '--boxes'\n\nFor more information, try '--help'.\n";

/// What is wrong with an output file beside `--live`.
const LIVE_OUTPUT: &[u8] =
    b"error: '--live' answers on standard output, and not in a file\n\nFor more information, try '--help'.\n";

/// What is wrong with a journal without `--live`, and with `--sync` without a journal.
const JOURNAL_ALONE: &[u8] =
    b"error: '--journal' needs '--live', and '--sync' needs '--journal'\n\nFor more information, try '--help'.\n";

/// Why the words of the command line can't be had.
#[derive(Clone, Copy, Debug, PartialEq, Eq)]
pub enum WordsFault {
    /// A word isn't UTF-8.
    NotUtf8,
    /// A growth of memory was refused.
    NoMemory,
}

/// Runs the program as the words of its command line say, of which the first names it. Where clap takes them
/// for a mistake, or as asking for help or the version, nothing is read: help is written to `out`, and what is
/// wrong to `errors`. `bytes` are those that the journal has; a run that isn't live knows nothing of it.
pub fn launch<I: In, O: Out, E: Out, J: Journal>(
    rt: &(impl Threads + Wait + Sync),
    alloc: Global,
    words: Result<Vec<String>, WordsFault>,
    bytes: Vec<u8>,
    input: &mut I,
    out: &mut O,
    errors: &mut E,
    journal: &mut J,
) -> Status
    ensures plain { IfOk words (λ words. vec_len words ≤ 1
        → IsRun nothing_asked I.remaining I.counts O.written O.failures
        input.old input.new out.old out.new result
        × MayReport E.written E.failures errors.old errors.new result × (journal.new ≡ journal.old)) }
    ensures options { IfOk words (λ words. 1 < vec_len words
        → (Runs (observed_by I.remaining I.counts O.written O.failures J.kept J.losses)
        (asks_to_live words.items) (asked_in words.items) bytes.items
        (devices input.old out.old journal.old) (devices input.new out.new journal.new) result
        × MayReport E.written E.failures errors.old errors.new result)
        ⊎ (EndsEarly (writing O.written O.failures out.old out.new) (writing E.written E.failures errors.old errors.new) result
        × (input.new ≡ input.old) × (journal.new ≡ journal.old))) }
    ensures wordless { IfErr words (λ _.
        EndsEarly (writing O.written O.failures out.old out.new) (writing E.written E.failures errors.old errors.new) result
        × (input.new ≡ input.old) × (journal.new ≡ journal.old)) }
{
    match words {
        Ok(words) if words.len() <= 1 => run(rt, alloc, Options::plain(), input, out, errors),
        Ok(words) => match mode_of(alloc, &words) {
            Ok(Mode::Job(options)) => run(rt, alloc, options, input, out, errors),
            Ok(Mode::Live(options)) => live(rt, alloc, options, bytes, input, out, errors, journal),
            Err(fault) => refuse(alloc, fault, out, errors),
        },
        Err(WordsFault::NotUtf8) => put(errors, NOT_UTF_8, Status::CommandLine),
        Err(WordsFault::NoMemory) => put_memory(out),
    }
}

/// What the words ask for.
#[derive(Clone, Copy, Debug, PartialEq, Eq)]
enum Mode {
    /// The run of a job.
    Job(Options),
    /// A live run.
    Live(LiveOptions),
}

/// Why the words say no options.
#[derive(Drop)]
enum OptionsFault {
    /// clap's answer: a mistake, or the text that was asked for.
    Clap(Error),
    /// The number of workers is none, or none from 1 to 64.
    Workers,
    /// An option of jobs alone is given beside `--live`.
    LiveAlone,
    /// An output file is given beside `--live`.
    LiveOutput,
    /// A journal is given without `--live`, or is to be flushed without being given.
    JournalAlone,
}

impl From<Error> for OptionsFault {
    ghost from_gives = { λ error fault. fault ≡ Clap error };

    fn from(error: Error) -> OptionsFault {
        OptionsFault::Clap(error)
    }
}

/// Returns what the words ask for.
fn mode_of(alloc: Global, words: &[String]) -> Result<Mode, OptionsFault>
    ensures wish { IfOk result (λ wish. IsModeOf wish words.now) }
    ensures alone { IfErr result (λ fault. is_live_alone fault ≡ true → asks_beside_live words.now ≡ true) }
{
    let Values {
        workers,
        has_output,
        has_journal,
    } = values_of(alloc, words)?;
    let options = Options {
        workers,
        threaded: asks(b"--threaded", words),
        oriented: asks(b"--oriented", words),
        named: asks(b"--names", words),
        strict: asks(b"--strict", words),
        bare: asks(b"--cif", words),
        boxed: asks(b"--boxes", words),
    };
    if !asks(b"--live", words) {
        return job_mode(options, has_journal || asks(b"--sync", words));
    }
    if is_live_refused(options) {
        return Err(OptionsFault::LiveAlone);
    }
    if has_output {
        return Err(OptionsFault::LiveOutput);
    }
    if asks(b"--sync", words) && !has_journal {
        return Err(OptionsFault::JournalAlone);
    }
    let showing = Showing {
        named: options.named,
        oriented: options.oriented,
    };
    Ok(Mode::Live(LiveOptions {
        workers,
        strict: options.strict,
        showing,
    }))
}

/// Returns the run of a job, which has no journal.
fn job_mode(options: Options, journaled: bool) -> Result<Mode, OptionsFault>
    ensures wish { IfOk result (λ wish. wish ≡ Job options) }
    ensures alone { IfErr result (λ fault. is_live_alone fault ≡ false) }
{
    if journaled {
        return Err(OptionsFault::JournalAlone);
    }
    Ok(Mode::Job(options))
}

/// Returns whether an option is given that a live run doesn't take.
fn is_live_refused(options: Options) -> bool
    ensures { result ≡ (options.threaded || (options.bare || options.boxed)) }
{
    options.threaded || options.bare || options.boxed
}

/// What the words say beside their options.
#[derive(Clone, Copy, Debug)]
struct Values {
    /// The number of workers.
    workers: u8,
    /// Whether there is an output file.
    has_output: bool,
    /// Whether there is a journal.
    has_journal: bool,
}

/// Returns the values that the words say, if clap takes them.
fn values_of(alloc: Global, words: &[String]) -> Result<Values, OptionsFault>
    ensures { IfErr result (λ fault. is_live_alone fault ≡ false) }
{
    let matches = command(alloc)?.try_get_matches_from(words)?;
    let workers = match matches.get_str("workers") {
        Some(word) => workers_in(word)?,
        None => 1,
    };
    Ok(Values {
        workers,
        has_output: matches.get_str("output").is_some(),
        has_journal: matches.get_str("journal").is_some(),
    })
}

/// Returns the number of workers that the word says.
fn workers_in(word: &str) -> Result<u8, OptionsFault>
    ensures { IfErr result (λ fault. is_live_alone fault ≡ false) }
{
    let Ok(number) = word.parse::<u8>() else {
        return Err(OptionsFault::Workers);
    };
    match Workers::new(number) {
        Some(workers) => Ok(workers.number()),
        None => Err(OptionsFault::Workers),
    }
}

/// Returns whether an argument is this option. In words that clap takes none is it but the option.
pub fn asks(option: &[u8], words: &[String]) -> bool
    ensures { result ≡ asks option.now words.now }
{
    match words.split_first() {
        Some((_, arguments)) => has(option, arguments),
        None => false,
    }
}

/// Returns whether one of the arguments is.
fn has(option: &[u8], arguments: &[String]) -> bool
    ensures { result ≡ list_any (is_option option.now) arguments.now }
{
    arguments
        .iter()
        .any(|argument| argument.as_bytes() == option)
}

/// Writes what is said in place of a run.
fn refuse<O: Out, E: Out>(alloc: Global, fault: OptionsFault, out: &mut O, errors: &mut E) -> Status
    ensures { EndsEarly (writing O.written O.failures out.old out.new)
        (writing E.written E.failures errors.old errors.new) result }
{
    match fault {
        OptionsFault::Workers => put(errors, BAD_WORKERS, Status::CommandLine),
        OptionsFault::LiveAlone => put(errors, LIVE_ALONE, Status::CommandLine),
        OptionsFault::LiveOutput => put(errors, LIVE_OUTPUT, Status::CommandLine),
        OptionsFault::JournalAlone => put(errors, JOURNAL_ALONE, Status::CommandLine),
        OptionsFault::Clap(error) => say(alloc, &error, out, errors),
    }
}

/// Writes clap's text: help to `out`, and what is wrong to `errors`.
fn say<O: Out, E: Out>(alloc: Global, error: &Error, out: &mut O, errors: &mut E) -> Status
    ensures { EndsEarly (writing O.written O.failures out.old out.new)
        (writing E.written E.failures errors.old errors.new) result }
{
    let Ok(text) = error.to_string(alloc) else {
        return put_memory(out);
    };
    match error.kind() {
        ErrorKind::OutOfMemory => put_memory(out),
        ErrorKind::DisplayHelp | ErrorKind::DisplayVersion => {
            put(out, text.as_bytes(), Status::Done)
        }
        _ => put(errors, text.as_bytes(), Status::CommandLine),
    }
}

/// Returns the words of the process's command line.
///
/// # Errors
///
/// `NotUtf8`, if a word isn't UTF-8; `NoMemory`, if an allocation fails.
pub fn words(rt: &HostRuntime) -> Result<Vec<String>, WordsFault> {
    match env::args(rt) {
        Ok(words) => words.collect(rt.alloc()).map_err(|_| WordsFault::NoMemory),
        Err(error) if error.kind() == io::ErrorKind::OutOfMemory => Err(WordsFault::NoMemory),
        Err(_) => Err(WordsFault::NotUtf8),
    }
}
