//! The files that the command line names, in place of the standard streams.

use crate::arguments::command;
use crate::command_line::{WordsFault, asks, launch};
use crate::journal::FileJournal;
use crate::program::{Status, put_memory};
use crate::streams::{Source, StandardInput, StandardOutput};
use byte_io::put_all;
use clap::error::ErrorKind;
use job_text::MAX_JOB;
use lay_point::NoMemory;
use live_run::NoJournal;
use std::alloc::Global;
use std::fs::{File, OpenOptions};
use std::io::{Read, Stderr, Write};
use std::sync::Wait;
use std::thread::Threads;
use std::{fs, io};

/// The device of what is written to a person.
type Errors = StandardOutput<Stderr>;

/// The device of what is read.
type Input = StandardInput<Source>;

/// The files that take the place of the standard streams.
#[derive(Drop)]
struct Files {
    /// The file that is read in place of standard input.
    input: Option<String>,
    /// The file that is written in place of standard output.
    output: Option<String>,
    /// The journal of a live run.
    journal: Option<String>,
    /// Whether each line of it is brought to the disk.
    is_synced: bool,
}

impl Files {
    /// Returns none, for the standard streams.
    fn none() -> Files {
        Files {
            input: None,
            output: None,
            journal: None,
            is_synced: false,
        }
    }
}

/// Returns the files that the words name: none, where clap doesn't take the words.
///
/// # Errors
///
/// `NoMemory`, if an allocation fails.
fn files_of(alloc: Global, words: &[String]) -> Result<Files, NoMemory> {
    if words.len() <= 1 {
        return Ok(Files::none());
    }
    let Ok(command) = command(alloc) else {
        return Err(NoMemory);
    };
    match command.try_get_matches_from(words) {
        Ok(matches) => Ok(Files {
            input: owned(alloc, matches.get_str("file"))?,
            output: owned(alloc, matches.get_str("output"))?,
            journal: owned(
                alloc,
                matches
                    .get_str("journal")
                    .filter(|_| asks(b"--live", words)),
            )?,
            is_synced: asks(b"--sync", words),
        }),
        Err(error) => match error.kind() {
            ErrorKind::OutOfMemory => Err(NoMemory),
            _ => Ok(Files::none()),
        },
    }
}

/// Returns the text in memory of its own.
fn owned(alloc: Global, text: Option<&str>) -> Result<Option<String>, NoMemory> {
    match text {
        Some(text) => Ok(Some(String::from_str(alloc, text).map_err(|_| NoMemory)?)),
        None => Ok(None),
    }
}

/// Runs the program as the words of its command line say, on the files that they name and the standard streams.
/// `threads` starts its threads.
pub fn run_files(
    rt: &HostRuntime,
    threads: &(impl Threads + Wait + Sync),
    words: Result<Vec<String>, WordsFault>,
    errors: &mut Errors,
) -> Status {
    let Files {
        input,
        output,
        journal,
        is_synced,
    } = match named(rt.alloc(), &words) {
        Some(files) => files,
        None => return put_memory(&mut StandardOutput::new(rt.stdout())),
    };
    let source = match &input {
        Some(path) => File::open(rt, path.as_str()).map(Source::File),
        None => Ok(Source::Standard(rt.stdin())),
    };
    let mut source = match source {
        Ok(source) => StandardInput::new(source),
        Err(error) => return fail(rt.alloc(), &input, "read", &error, errors),
    };
    match output {
        None => write_standard(
            rt,
            threads,
            words,
            (journal, is_synced),
            &mut source,
            errors,
        ),
        Some(path) => write_file(rt, threads, words, path, &mut source, errors),
    }
}

/// Runs the program with standard output as its output, and the journal that is named, if one is.
fn write_standard(
    rt: &HostRuntime,
    threads: &(impl Threads + Wait + Sync),
    words: Result<Vec<String>, WordsFault>,
    (path, is_synced): (Option<String>, bool),
    source: &mut Input,
    errors: &mut Errors,
) -> Status {
    let (mut journal, bytes) = match open_journal(rt, &path, is_synced) {
        Ok(opened) => opened,
        Err(error) => return fail(rt.alloc(), &path, "opened as a journal", &error, errors),
    };
    let has_begun = !bytes.is_empty();
    let mut out = StandardOutput::new(rt.stdout());
    let alloc = rt.alloc();
    let status = launch(
        threads,
        alloc,
        words,
        bytes,
        source,
        &mut out,
        errors,
        &mut journal,
    );
    if has_begun && (status == Status::Job || status == Status::Cif) {
        tell_of_no_journal(alloc, &path, errors);
    }
    tell_of_length(alloc, out.len(), errors);
    status
}

/// Opens the journal of this name, and returns what it has; without a name one that keeps nothing. A line without its end
/// is cut off before the first line is added.
fn open_journal(
    rt: &HostRuntime,
    path: &Option<String>,
    is_synced: bool,
) -> io::Result<(FileJournal, Vec<u8>)> {
    let alloc = rt.alloc();
    let errors = StandardOutput::new(rt.stderr());
    let mut bytes = Vec::new(alloc);
    let Some(path) = path else {
        return Ok((FileJournal::new(alloc, None, None, false, errors), bytes));
    };
    let mut options = OpenOptions::new();
    let mut file = options
        .read(true)
        .append(true)
        .create(true)
        .open(rt, path.as_str())?;
    file.try_lock()?;
    file.read_to_end(&mut bytes)?;
    let whole = whole_len(&bytes);
    let cut = if whole < bytes.len() {
        Some(whole as u64)
    } else {
        None
    };
    Ok((
        FileJournal::new(alloc, Some(file), cut, is_synced, errors),
        bytes,
    ))
}

/// Returns how many bytes there are up to the last newline.
fn whole_len(bytes: &[u8]) -> usize {
    match bytes.iter().rposition(|byte| *byte == b'\n') {
        Some(place) => place.saturating_add(1),
        None => 0,
    }
}

/// Returns the files that the words name, `None` where memory is refused.
fn named(alloc: Global, words: &Result<Vec<String>, WordsFault>) -> Option<Files> {
    match words {
        Ok(words) => files_of(alloc, words).ok(),
        Err(_) => Some(Files::none()),
    }
}

/// Runs the program with a new file beside this one as its output, which takes this one's place if all was written. Else
/// this file stays as it was, and the line of a fault is written to standard output.
fn write_file(
    rt: &HostRuntime,
    threads: &(impl Threads + Wait + Sync),
    words: Result<Vec<String>, WordsFault>,
    path: String,
    source: &mut Input,
    errors: &mut Errors,
) -> Status {
    let path = Some(path);
    let Ok(beside) = beside(rt.alloc(), &path) else {
        return put_memory(&mut StandardOutput::new(rt.stdout()));
    };
    let file = match File::create_new(rt, beside.as_str()) {
        Ok(file) => file,
        Err(error) => return fail(rt.alloc(), &Some(beside), "written", &error, errors),
    };
    let mut out = StandardOutput::new(file);
    let alloc = rt.alloc();
    let status = launch(
        threads,
        alloc,
        words,
        Vec::new(alloc),
        source,
        &mut out,
        errors,
        &mut NoJournal,
    );
    tell_of_length(rt.alloc(), out.len(), errors);
    let done = match status {
        Status::Done | Status::Refused => finish(rt, out, &beside, &path),
        Status::Device => discard(rt, out, &beside),
        _ => give_up(rt, out, &beside),
    };
    match done {
        Ok(()) => status,
        Err(error) => fail(rt.alloc(), &path, "written", &error, errors),
    }
}

/// Returns the name of the new file beside this one.
fn beside(alloc: Global, path: &Option<String>) -> io::Result<String> {
    let mut name = String::new(alloc);
    if let Some(path) = path {
        write!(name, "{}.new", path.as_str())?;
    }
    Ok(name)
}

/// Puts the new file in the place of the named one, once its bytes are on the disk.
fn finish(
    rt: &HostRuntime,
    out: StandardOutput<File>,
    beside: &String,
    path: &Option<String>,
) -> io::Result<()> {
    let file = out.into_stream();
    file.sync_all()?;
    match path {
        Some(path) => fs::rename(rt, beside.as_str(), path.as_str()),
        None => Ok(()),
    }
}

/// Removes the new file.
fn discard(rt: &HostRuntime, out: StandardOutput<File>, beside: &String) -> io::Result<()> {
    drop(out);
    fs::remove_file(rt, beside.as_str())
}

/// Removes the new file, after what is in it, the line of a fault, is written to standard output.
fn give_up(rt: &HostRuntime, out: StandardOutput<File>, beside: &String) -> io::Result<()> {
    drop(out);
    let line = fs::read(rt, beside.as_str())?;
    let mut standard = StandardOutput::new(rt.stdout());
    let shown = put_all(&mut standard, &line);
    fs::remove_file(rt, beside.as_str())?;
    match shown {
        Ok(()) => Ok(()),
        Err(_) => Err(io::Error::from(io::ErrorKind::BrokenPipe)),
    }
}

/// Tells that so many bytes are written, if they are more than are read.
fn tell_of_length(alloc: Global, len: u64, errors: &mut Errors) {
    if len <= MAX_JOB as u64 {
        return;
    }
    let mut line = String::new(alloc);
    let text = "masklay: what was written has";
    if write!(line, "{text} {len} bytes, and at most {MAX_JOB} are read\n").is_ok() {
        let _ = put_all(errors, line.as_bytes());
    }
}

/// Tells that no run begins from the journal of this name.
fn tell_of_no_journal(alloc: Global, path: &Option<String>, errors: &mut Errors) {
    let mut line = String::new(alloc);
    let name = match path {
        Some(path) => path.as_str(),
        None => return,
    };
    let text = "isn't a journal that a run can begin from, and is as it was";
    if write!(line, "masklay: {name} {text}\n").is_ok() {
        let _ = put_all(errors, line.as_bytes());
    }
}

/// Tells that a file can't be read or written, and returns the status of that.
fn fail(
    alloc: Global,
    path: &Option<String>,
    what: &str,
    error: &io::Error,
    errors: &mut Errors,
) -> Status {
    let mut line = String::new(alloc);
    let name = match path {
        Some(path) => path.as_str(),
        None => "standard input",
    };
    let told = match error.kind() {
        io::ErrorKind::WouldBlock => write!(
            line,
            "masklay: {name} is the journal of a run that goes on\n"
        ),
        _ => write!(line, "masklay: {name} can't be {what}: {error}\n"),
    };
    if told.is_ok() {
        let _ = put_all(errors, line.as_bytes());
    }
    Status::Device
}
