//! The options that `clap` takes, and what help says of them.
use clap::{Arg, ArgAction, Command, Error};
use std::alloc::Global;

/// What help says after the options.
const EXAMPLE: &str =
    "Coordinates of steps are database units of 5 nanometres; those of the CIF text are hundredths of a micrometre, times the scale of its definition.

Examples, in a shell:
  masklay --cif chip.cif                        reads a CIF text, and writes its layout
  masklay --cif chip.cif -o new.cif             the same, into a file
  masklay --strict job.txt -o new.cif           runs a job; the status tells of refused steps
  masklay --oriented --names < job.txt          for readers that fill holes, with cell names
  masklay --live --journal chip.journal         steps line by line, which are still there tomorrow
  printf '%%cif\nL M; B 40 20 0 0; E\n%%session 1\nopen\nbox top M 0 0 30 30\nor top M M Q\ncommit\n' | masklay

Statuses: 0 all was written, refused steps included; 2 a mistake in the command line; 3 a fault of the job, 4 of its CIF text, each a line on standard output, and in words on standard error; 5 a file, or the input or output, can't be read or written; 6 out of memory; 7 the sessions' desk was at fault, where they ran in threads; 8 all was written, and a step was refused, with --strict.";

/// The program's name, what it does, and its options.
pub fn command<'a>(alloc: Global) -> Result<Command<'a>, Error> {
    let command = Command::new(alloc, "masklay")
        .version("0.1.0")
        .about(
            "Reads a job: a CIF text and steps on its layout. Writes the replies, their order and the CIF text of the layout that they lead to.",
        )
        .after_help(EXAMPLE);
    let command = with_ways(alloc, with_sessions(alloc, with_files(alloc, command)?)?)?;
    with_journal(alloc, command)
}

/// The command, with what it reads and writes.
fn with_files<'a>(alloc: Global, command: Command<'a>) -> Result<Command<'a>, Error> {
    let file = Arg::new(alloc, "file")
        .value_name("FILE")
        .help("The job, or with --cif the CIF text; standard input, where there is none")
        .action(ArgAction::Set);
    let output = Arg::new(alloc, "output")
        .short('o')
        .long("output")
        .value_name("FILE")
        .help("Writes to this file, which is replaced at the end, if all was written")
        .action(ArgAction::Set);
    let cif = Arg::new(alloc, "cif")
        .long("cif")
        .help("Takes the input for a CIF text, and not for a job")
        .action(ArgAction::SetTrue);
    Ok(command.arg(file)?.arg(output)?.arg(cif)?)
}

/// The command, with how steps are run.
fn with_sessions<'a>(alloc: Global, command: Command<'a>) -> Result<Command<'a>, Error> {
    let strict = Arg::new(alloc, "strict")
        .long("strict")
        .help("Ends with status 8 where a step was refused; the output is the same")
        .action(ArgAction::SetTrue);
    let workers = Arg::new(alloc, "workers")
        .long("workers")
        .value_name("N")
        .help(
            "How many threads find the edges of an operation, from 1 to 64; the output is the same",
        )
        .action(ArgAction::Set);
    let threaded = Arg::new(alloc, "threaded")
        .long("threaded")
        .help("Runs each session in a thread of its own; the job's order plays no part")
        .action(ArgAction::SetTrue);
    Ok(command.arg(strict)?.arg(workers)?.arg(threaded)?)
}

/// The command, with how the layout is written, and when.
fn with_ways<'a>(alloc: Global, command: Command<'a>) -> Result<Command<'a>, Error> {
    let oriented = Arg::new(alloc, "oriented")
        .long("oriented")
        .help("Directs each shape's path, so that readers by winding number see its holes too")
        .action(ArgAction::SetTrue);
    let names = Arg::new(alloc, "names")
        .long("names")
        .help(
            "Writes each symbol with the name (9) and the labels (94) that it had in the text that was read",
        )
        .action(ArgAction::SetTrue);
    let live = Arg::new(alloc, "live")
        .long("live")
        .help(
            "Answers each step at once: after `%cif`, the text and `%live` come lines `SESSION STEP`, or `%write`",
        )
        .action(ArgAction::SetTrue);
    let boxes = Arg::new(alloc, "boxes")
        .long("boxes")
        .help(
            "Writes upright rectangles as boxes, where their middle is on the grid; what is read back are the same rectangles",
        )
        .action(ArgAction::SetTrue);
    Ok(command.arg(oriented)?.arg(names)?.arg(boxes)?.arg(live)?)
}

/// The command, with what a live run keeps.
fn with_journal<'a>(alloc: Global, command: Command<'a>) -> Result<Command<'a>, Error> {
    let journal = Arg::new(alloc, "journal")
        .long("journal")
        .value_name("FILE")
        .help(
            "Keeps a live run in this file: each step is in it before its reply. A run that finds steps in it goes on after them",
        )
        .action(ArgAction::Set);
    let sync = Arg::new(alloc, "sync")
        .long("sync")
        .help(
            "Flushes each step to the disk before its reply, and not commits, undos and redos alone",
        )
        .action(ArgAction::SetTrue);
    Ok(command.arg(journal)?.arg(sync)?)
}
