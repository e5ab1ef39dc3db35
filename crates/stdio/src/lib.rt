// Standard input and output, so that nothing is lost in silence: a call that a signal interrupts is made again, and so is one on a non-blocking
// descriptor that is not ready, after a pause. Every other failure is the caller's to tell, by `fail`.
//
// What a call reads or writes no contract can say; these say which bytes of the buffer it may speak of.
#![tactic(auto)]

ghost use Rattle.std.specs.Prelude.{◌≡◌, ◌≤◌, IfErr, IfOk, length, take};

use std::env::FillError;
use std::fs::OpenOptions;
use std::io::{self, ErrorKind, Read, Write};
use std::rt::Env;

mod pause;
mod reason;

use pause::pause;
pub use reason::fail;

// That a read failed, and why; and how many bytes it has put at the start of the buffer before it did.
#[derive(Drop)]
pub struct ReadFailed {
    pub count: usize,
    pub error: io::Error,
}

// Whether the call that has failed so is to be made again.
fn is_to_be_repeated(rt: &HostRuntime, error: &io::Error) -> bool {
    match error.kind() {
        ErrorKind::WouldBlock => {
            pause(rt);
            true
        }
        kind => kind == ErrorKind::Interrupted,
    }
}

// Reads once from standard input, and answers how many bytes it has put at the start of the buffer: none at the end of the input. A proved loop
// ends, and nothing says that signals do: there are more turns than any run uses up.
pub fn read(rt: &HostRuntime, buf: &mut [u8]) -> Result<usize, ReadFailed>
    ensures counted { IfOk result (λ count. (count ≤ length buf.new) × (count ≡ length (take count buf.new))) }
    ensures failed { IfErr result (λ e. (e.count ≤ length buf.new) × (e.count ≡ length (take e.count buf.new))) }
    ensures kept { length buf.new ≡ length buf.old }
{
    for _ in 0..u64::MAX {
        match rt.stdin().read(buf) {
            Ok(count) => return Ok(count),
            Err(error) if is_to_be_repeated(rt, &error) => {}
            Err(error) => return Err(ReadFailed { count: 0, error }),
        }
    }
    Err(ReadFailed {
        count: 0,
        error: io::Error::from(ErrorKind::TimedOut),
    })
}

// Reads from standard input until the buffer is full or the input ends, and answers how many bytes stand at the start of the buffer.
pub fn read_full(rt: &HostRuntime, buf: &mut [u8]) -> Result<usize, ReadFailed>
    ensures counted { IfOk result (λ count. (count ≤ length buf.new) × (count ≡ length (take count buf.new))) }
    ensures failed { IfErr result (λ e. (e.count ≤ length buf.new) × (e.count ≡ length (take e.count buf.new))) }
    ensures kept { length buf.new ≡ length buf.old }
{
    let mut done: usize = 0;
    while done < buf.len() {
        let count = match read(rt, &mut buf[done..]) {
            Ok(count) => count,
            Err(ReadFailed { error, .. }) => return Err(ReadFailed { count: done, error }),
        };
        if count == 0 {
            break;
        }
        done += count;
    }
    Ok(done)
}

// Writes all of these bytes to standard output, and answers whether it took them.
pub fn write(rt: &HostRuntime, bytes: &[u8]) -> io::Result<()> {
    let mut rest = bytes;
    for _ in 0..u64::MAX {
        if rest.is_empty() {
            return Ok(());
        }
        match rt.stdout().write(rest) {
            Ok(0) => return Err(io::Error::from(ErrorKind::WriteZero)),
            Ok(put) => rest = &rest[put..],
            Err(error) if is_to_be_repeated(rt, &error) => {}
            Err(error) => return Err(error),
        }
    }
    if rest.is_empty() {
        return Ok(());
    }
    Err(io::Error::from(ErrorKind::TimedOut))
}

// Whether a sync that has failed so says only that this file is none that can be synced.
fn is_never_synced(error: &io::Error) -> bool {
    matches!(
        error.kind(),
        ErrorKind::InvalidInput | ErrorKind::ReadOnlyFilesystem | ErrorKind::Unsupported
    )
}

// Standard output among the open files of this process.
const OUTPUT: &str = "/proc/self/fd/1";

// Answers whether all that was written to standard output has arrived: a file system over a network may say only at the end that it has no room.
// `std` tells no error of a close, so a regular file is opened once more and synced, which tells the same error. Where it cannot be opened, as where
// it was closed from the start and nothing was written to it, no more can be known. Whatever is no regular file is left alone: a pipe and a
// terminal keep nothing back, and to open a pipe may wait for a reader.
fn close(rt: &HostRuntime) -> io::Result<()> {
    let is_file = match std::fs::metadata(rt, OUTPUT) {
        Ok(metadata) => metadata.is_file(),
        Err(_) => false,
    };
    if !is_file {
        return Ok(());
    }
    match OpenOptions::new().write(true).open(rt, OUTPUT) {
        Ok(file) => match file.sync_data() {
            Err(error) if !is_never_synced(&error) => Err(error),
            _ => Ok(()),
        },
        Err(_) => Ok(()),
    }
}

// Writes the last of the output, ends it, and answers whether all has arrived.
pub fn write_last(rt: &HostRuntime, bytes: &[u8]) -> io::Result<()> {
    write(rt, bytes)?;
    close(rt)
}

// Whether the program was started with an argument, of which none of ours takes any: then its line of usage goes to standard error.
pub fn refuses_arguments(rt: &HostRuntime, usage: &[u8]) -> bool {
    let mut first = [0u8; 1];
    match rt.arg(1, &mut first) {
        Err(FillError::NotPresent) => false,
        _ => {
            let _ = Write::write_all(&mut rt.stderr(), usage);
            true
        }
    }
}
