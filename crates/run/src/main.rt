// Runs a recipe on the frames of standard input, and writes the answer to each on a line (document 01, "Sheet and run on paper").
//
// The input is a recipe, an empty line, then one frame per line. The answer to a frame is its run's kind and word, or a refusal line, which
// does not stop the next. A refused recipe gives one line and ends the program, as does the end of the input. So do a read and a write that fail,
// each with one line on standard error.
//
// What `answer` does between its system calls is a `Course` (`programs/specs/Course.antt`): it is in the loop's invariant, so that each chunk is
// fed from its first byte to its last before the next is read, and the front of the output after each feed is known. `end` asks for it where the
// loop is left, so that the stream that is finished has followed it to there. By `any_chunks`, all of these together are the output that the rules
// ask for. That `write` is handed this front is to be read below: it ensures nothing that could say so.
#![tactic(auto)]

ghost use Rattle.std.specs.Prelude.{◌≤◌, length, take};
ghost use Rattle.stream.specs.Held.{Ends, Follows};

use std::io;
use stream::Stream;

// How many bytes are read at a time, and how many of the output are gathered before they are written.
const CHUNK: usize = 8192;

// The system call that failed, and why.
#[derive(Drop)]
enum Failure {
    Read(stdio::ReadFailed),
    Write(io::Error),
}

// Ends the course, after a refused recipe or at the end of the input, and answers how many bytes it puts out. The chunk and the place are there for
// what is asked alone.
fn end(stream: &mut Stream, chunk: &[u8], at: usize, out: &mut [u8]) -> usize
    requires { Follows chunk.now at stream.old × (19 ≤ length out.old) }
    ensures { (result ≤ length out.new) × Ends stream.old (take result out.new) }
{
    stream.finish(out)
}

// Reads standard input and answers it on standard output. A proved loop ends, and nothing says that the input does: there are more turns than any
// run uses up. None follows the end of the input, nor a refused recipe.
fn answer(rt: &HostRuntime) -> Result<(), Failure> {
    let mut stream = Stream::new();
    let mut input = [0u8; CHUNK];
    let mut output = [0u8; CHUNK];
    // the bytes of the present chunk, and the place up to which it is used
    let mut n: usize = 0;
    let mut at: usize = 0;
    for _ in 0..u64::MAX {
        if at < n {
            let progress = stream.feed(&input[at..n], &mut output);
            at += progress.at;
            stdio::write(rt, &output[..progress.put]).map_err(Failure::Write)?;
            if stream.is_done() {
                break;
            }
        } else {
            n = stdio::read(rt, &mut input).map_err(Failure::Read)?;
            at = 0;
            if n == 0 {
                break;
            }
        }
    }
    let put = end(&mut stream, &input[..n], at, &mut output);
    stdio::write_last(rt, &output[..put]).map_err(Failure::Write)
}

fn main(rt: HostRuntime) {
    if stdio::refuses_arguments(
        &rt,
        b"usage: run <input >answers (a recipe, an empty line, then one frame per line; no argument is taken)\n",
    ) {
        return;
    }
    match answer(&rt) {
        Ok(()) => {}
        Err(Failure::Read(failed)) => stdio::fail(
            &rt,
            "run: answers are incomplete: cannot read standard input",
            &failed.error,
        ),
        Err(Failure::Write(error)) => stdio::fail(
            &rt,
            "run: answers are incomplete: cannot write standard output",
            &error,
        ),
    }
}
