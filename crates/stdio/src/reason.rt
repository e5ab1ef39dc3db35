// The line that says what could not be done, and why.
use arrayvec::ArrayString;
use std::fmt::Write;
use std::io;

// How many bytes the text of an error has at most: 256 of the C library's, and the error's number.
const MOST: usize = 320;

// Writes a line to standard error: what failed, as the caller names it, a colon and the C library's text, which `io::Error` shows with the error's
// number behind it. Where this cannot be written either, there is no one left to tell.
pub fn fail(rt: &HostRuntime, what: &str, error: &io::Error) {
    let mut text = ArrayString::<MOST>::new();
    let _ = write!(text, "{error}");
    let text = text.as_str();
    let reason = match text.rsplit_once(" (os error ") {
        Some((reason, _number)) => reason,
        None => text,
    };
    let _ = eprintln!(rt; "{what}: {reason}");
}
