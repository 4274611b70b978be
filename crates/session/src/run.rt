ghost use Rattle.std.specs.Prelude.{◌≡◌, ◌+◌, ◌-◌, ◌^◌, ◌≤◌, min};

use crate::refusal::Refusal;
use crate::session::Session;
use script::{Command, Expected, Marked, parse_line};
use std::alloc::{AllocError, Global};
use std::io;
use std::io::{BufRead, BufReader};

/// A script that is being performed, line by line.
#[derive(Drop)]
pub(crate) struct Run {
    heap: Global,
    session: Session,
    line: u64,
    errors: u64,
}

impl Run {
    /// No line is read.
    pub(crate) fn new(heap: Global) -> Run
        ensures { result.errors ≡ 0 }
    {
        Run {
            heap,
            session: Session::new(heap),
            line: 0,
            errors: 0,
        }
    }

    /// How many lines could not be performed as they are written.
    pub(crate) fn errors(&self) -> u64
        ensures { result ≡ self.now.errors }
    {
        self.errors
    }

    /// Performs the next line, and adds its answer to the text.
    pub(crate) fn step(&mut self, line: &[u8], text: &mut String) -> Result<(), AllocError>
        ensures lines { self.new.line ≡ min (self.old.line + 1) (2 ^ 64 - 1) }
        ensures errors { self.old.errors ≤ self.new.errors }
    {
        self.line = self.line.saturating_add(1);
        match parse_line(self.heap, line) {
            Ok(None) => Ok(()),
            Ok(Some(command)) => self.perform(command, text),
            Err(expected) => self.refuse(expected, text),
        }
    }

    /// Performs a command, and adds its answer to the text.
    fn perform(&mut self, command: Marked<Command>, text: &mut String) -> Result<(), AllocError>
        ensures lines { self.new.line ≡ self.old.line }
        ensures errors { self.old.errors ≤ self.new.errors }
    {
        let Marked { column, value } = command;
        match self.session.perform(value) {
            Ok(answer) => writeln!(text, "{answer}"),
            Err(Refusal::Fault(fault)) => writeln!(text, "{fault}"),
            Err(Refusal::Wrong(expected)) => self.refuse(expected, text),
            Err(Refusal::Lacking(what)) => self.refuse(Expected { column, what }, text),
        }
    }

    /// Counts a wrong line, and adds what is wrong to the text.
    fn refuse(&mut self, expected: Expected, text: &mut String) -> Result<(), AllocError>
        ensures lines { self.new.line ≡ self.old.line }
        ensures counted { self.new.errors ≡ min (self.old.errors + 1) (2 ^ 64 - 1) }
        ensures errors { self.old.errors ≤ self.new.errors }
    {
        self.errors = self.errors.saturating_add(1);
        let line = self.line;
        let column = expected.column;
        let what = expected.what;
        writeln!(text, "error: line {line}, column {column}: {what}")
    }
}

/// A line without the bytes that end it.
fn without_end(line: &[u8]) -> &[u8] {
    match line {
        [text @ .., b'\r', b'\n'] | [text @ .., b'\n'] => text,
        _ => line,
    }
}

const FULL: usize = 65536;

/// Performs the script on standard input, answers on standard output, and counts the wrong lines.
pub fn run_script(rt: &HostRuntime) -> io::Result<u64> {
    let heap = rt.alloc();
    let mut input = BufReader::new(heap, rt.stdin())?;
    let mut script = Run::new(heap);
    let mut line = Vec::new(heap);
    let mut text = String::new(heap);
    // Input may never end, and each loop is proved to end.
    for _ in 0..u64::MAX {
        line.clear();
        if input.read_until(b'\n', &mut line)? == 0 {
            break;
        }
        script.step(without_end(line.as_slice()), &mut text)?;
        if text.len() >= FULL {
            rt.print(text.as_str())?;
            text.clear();
        }
    }
    rt.print(text.as_str())?;
    Ok(script.errors())
}
