//! Files: the one that a request works on, and those that are written.

use std::fs::File;
use std::io::{ErrorKind, Read, Write};
use std::{fs, io};
use txs_cli_args::{Input, Request};
use txs_cli_report::streams::{ReadFault, read_bytes};
use txs_cli_report::told::{DONE, SPENT, UNUSABLE};
use txs_cli_report::write_told;

/// A file that is read, where it could be opened; and why it couldn't, or couldn't be read.
#[derive(Drop)]
pub(crate) struct Source {
    file: Option<File>,
    pub(crate) fault: Option<io::Error>,
}

impl Source {
    /// Opens the file of this name.
    pub(crate) fn open(rt: &HostRuntime, name: &str) -> Source {
        match File::open(rt, name) {
            Ok(file) => Source {
                file: Some(file),
                fault: None,
            },
            Err(error) => Source {
                file: None,
                fault: Some(error),
            },
        }
    }
}

impl Read for Source {
    fn read(&mut self, buf: &mut [u8]) -> io::Result<usize> {
        let Some(file) = &mut self.file else {
            return Err(io::Error::from(ErrorKind::NotFound));
        };
        match file.read(buf) {
            Ok(read) => {
                // what was interrupted is read again
                self.fault = None;
                Ok(read)
            }
            Err(error) => {
                let kind = error.kind();
                self.fault = Some(error);
                Err(io::Error::from(kind))
            }
        }
    }
}

/// What the command works on; nothing where there is but a text to print.
fn input_of(request: &Request) -> Option<&Input> {
    match request {
        Request::Check { input }
        | Request::List { input }
        | Request::Build { input, .. }
        | Request::Run { input, .. }
        | Request::Record { input, .. }
        | Request::Schedule { input, .. }
        | Request::Replay { input, .. }
        | Request::Show { input, .. }
        | Request::CheckJson { input }
        | Request::Explore { input, .. } => Some(input),
        Request::Shown(_) | Request::Faulty(_) => None,
    }
}

/// The file that the request names, if it names one.
pub(crate) fn file_of(request: &Request) -> Option<&str> {
    match &input_of(request)?.file {
        Some(name) => Some(name.as_str()),
        None => None,
    }
}

/// Whether the request asks for explanations.
pub(crate) fn explains(request: &Request) -> bool {
    match input_of(request) {
        Some(input) => input.explain,
        None => false,
    }
}

/// The name under which lines are explained, where the request asks for explanations.
pub(crate) fn explained_as(request: &Request) -> Option<&str> {
    if explains(request) {
        Some(file_of(request).unwrap_or("-"))
    } else {
        None
    }
}

/// Says why a file couldn't be opened, read or written, where the request asks for explanations. The standard error may fail too: then the line
/// before it is all.
pub(crate) fn explain_file(rt: &HostRuntime, request: &Request, name: &str, error: &io::Error) {
    if explains(request) {
        let _ = eprintln!(rt; "{name}: {error}");
    }
}

/// Says that there is a file of the name under which this one would be written first, where the request asks for explanations.
fn explain_part(rt: &HostRuntime, request: &Request, name: &str, what: &str) {
    if explains(request) {
        let _ = eprintln!(rt; "{name}.part: {what} is written there first, and this file is there");
    }
}

/// Whether a file is there that isn't made of bytes on a disk, as a pipe or a device.
fn is_special(rt: &HostRuntime, out: &str) -> bool {
    match fs::metadata(rt, out) {
        Ok(data) => !data.is_file(),
        Err(_) => false,
    }
}

/// Writes a new file beside this one, and gives it this name once it is whole. So where it fails, what was there is left as it is.
fn write_beside(rt: &HostRuntime, out: &str, bytes: &[u8]) -> io::Result<()> {
    let mut part = String::new(rt.alloc());
    part.push_str(out)?;
    part.push_str(".part")?;
    let mut file = File::create_new(rt, part.as_str())?;
    let written = match file.write_all(bytes) {
        Ok(()) => fs::rename(rt, part.as_str(), out),
        Err(error) => Err(error),
    };
    if written.is_err() {
        let _ = fs::remove_file(rt, part.as_str());
    }
    written
}

/// Writes these bytes to the file of this name: a link is followed, and a pipe or a device is written to as it is.
fn write_file(rt: &HostRuntime, out: &str, bytes: &[u8]) -> io::Result<()> {
    if is_special(rt, out) {
        return fs::write(rt, out, bytes);
    }
    match fs::canonicalize(rt, out) {
        Ok(path) => write_beside(rt, path.as_path().as_str(), bytes),
        Err(_) => write_beside(rt, out, bytes),
    }
}

/// Whether two names are of one file that is there.
fn are_one(rt: &HostRuntime, one: &str, other: &str) -> bool {
    match (fs::canonicalize(rt, one), fs::canonicalize(rt, other)) {
        (Ok(a), Ok(b)) => a.as_path().as_str() == b.as_path().as_str(),
        _ => false,
    }
}

/// Whether a file that is written would go over the script itself, also where that is a file that standard input is read from.
pub(crate) fn covers_source(rt: &HostRuntime, request: &Request, out: &str) -> bool {
    let name = file_of(request).unwrap_or("/dev/stdin");
    !is_special(rt, out) && are_one(rt, name, out)
}

/// A line on the standard error, and this status.
pub(crate) fn complain(rt: &HostRuntime, line: &[u8], status: u8) -> u8 {
    write_told(&[], line, status, &mut io::writer(rt), &mut rt.stderr())
}

/// Writes these bytes to the file of this name, which are this. Answers the status.
pub(crate) fn write_to(
    rt: &HostRuntime,
    request: &Request,
    out: &str,
    bytes: &[u8],
    what: &str,
) -> u8 {
    match write_file(rt, out, bytes) {
        Ok(()) => DONE,
        Err(error) => {
            let status = complain(rt, b"write failed\n", UNUSABLE);
            if error.kind() == ErrorKind::AlreadyExists {
                explain_part(rt, request, out, what);
            } else {
                explain_file(rt, request, out, &error);
            }
            status
        }
    }
}

/// Says that there is no memory. Answers the status.
pub(crate) fn no_memory(rt: &HostRuntime) -> u8 {
    complain(rt, b"out of memory\n", SPENT)
}

/// Says that a stream couldn't be read, or not for want of memory. Answers the status.
fn unread(rt: &HostRuntime, fault: ReadFault) -> u8 {
    match fault {
        ReadFault::Failed => complain(rt, b"read failed\n", UNUSABLE),
        ReadFault::Memory => no_memory(rt),
    }
}

/// The bytes of the request's file or of standard input.
///
/// # Errors
/// The status where they can't be read, which is said.
pub(crate) fn read_input(rt: &HostRuntime, request: &Request) -> Result<Vec<u8>, u8> {
    let Some(name) = file_of(request) else {
        return match read_bytes(rt.alloc(), &mut rt.stdin()) {
            Ok(bytes) => Ok(bytes),
            Err(fault) => Err(unread(rt, fault)),
        };
    };
    let mut source = Source::open(rt, name);
    match read_bytes(rt.alloc(), &mut source) {
        Ok(bytes) => Ok(bytes),
        Err(fault) => {
            let status = unread(rt, fault);
            if let Some(error) = &source.fault {
                explain_file(rt, request, name, error);
            }
            Err(status)
        }
    }
}
