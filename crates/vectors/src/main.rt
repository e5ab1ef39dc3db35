// Runs the cases of standard input, one a line, and writes the answer to each on a line.
//
// A line of input is 40 bytes: the function's number in 2 hex digits, the width in bits in 2, and two operands in 16 each, parted by
// spaces. A line of output is 37: the refusal's number in 2, and two words in 16 each. A malformed line, an unknown function and an
// unknown width are answered by ff and zeros. A last line that is cut short is left out.
#![tactic(auto)]

ghost use Rattle.std.specs.Prelude.{◌≡◌, ◌*◌, ◌≤◌, length, take};
ghost use Rattle.vectors.specs.Line.{response_of, responses};

mod answer;
mod call;
mod case;

use answer::Answer;

// How many lines are read, answered and written at a time.
const LINES: usize = 1024;

// Answers one line.
fn respond(input: &[u8], output: &mut [u8])
    requires { (length input.now ≡ 40) × (length output.old ≡ 37) }
    ensures { output.new ≡ response_of input.now }
{
    match case::parse(input) {
        Some(c) => call::answer(c).format(output),
        None => Answer::unknown().format(output),
    }
}

// Answers the first n lines of the input.
fn respond_all(input: &[u8], n: usize, output: &mut [u8])
    requires { (n * 40 ≤ length input.now) × (n * 37 ≤ length output.old) }
    ensures { take (n * 37) output.new ≡ responses input.now n }
{
    for i in 0..n {
        let from = i * case::LINE;
        let to = i * answer::LINE;
        respond(
            &input[from..from + case::LINE],
            &mut output[to..to + answer::LINE],
        );
    }
}

// Reads until the buffer is full or the input ends, and answers whether there may be more. A last line that is cut off has no answer.
fn run_some(rt: &HostRuntime) -> bool {
    let mut input = [0u8; LINES * case::LINE];
    let mut output = [0u8; LINES * answer::LINE];
    let count = match stdio::read_full(rt, &mut input) {
        Ok(count) => count,
        Err(failed) => {
            stdio::fail(
                rt,
                "vectors: answers are incomplete: cannot read standard input",
                &failed.error,
            );
            return false;
        }
    };
    let n = count / case::LINE;
    respond_all(&input, n, &mut output);
    if let Err(error) = stdio::write(rt, &output[..n * answer::LINE]) {
        stdio::fail(
            rt,
            "vectors: answers are incomplete: cannot write standard output",
            &error,
        );
        return false;
    }
    n == LINES
}

// A proved loop ends, and nothing says that the input does: there are more turns than any run uses up.
fn main(rt: HostRuntime) {
    for _ in 0..u64::MAX {
        if !run_some(&rt) {
            return;
        }
    }
}
