// Frame lines, taken from chunks that end anywhere. A line that lies whole in a chunk is read where it stands; what a chunk has of a line
// that goes on in the next is kept in a buffer.
ghost use Rattle.std.specs.Prelude.{◌≡◌, List, ◌++◌, ℕ, ◌≤◌, ◌<◌, eqb, length, position, take};
ghost use Rattle.recipe.specs.declared.Step.{Step};
ghost use Rattle.recipe.specs.Answer.{Holds};
ghost use Rattle.programs.specs.Output.{frame_line};
ghost use Rattle.programs.specs.Stage.{NoFeed, Kept, kept_bytes, Answered, Handled, Untouched};

use output::{LINE, frame_line, refusal_line};
use programs::Progress;

// What a piece of a chunk came to, and how many bytes are kept of the line that it ends in: none where that is longer than the longest frame.
#[derive(Drop)]
pub struct Turn {
    pub progress: Progress,
    pub kept: Option<usize>,
}

// The place of the first line feed, if there is one.
fn line_end(s: &[u8]) -> Option<usize>
    ensures { result ≡ position (λ b. eqb b 10) s.now }
{
    s.iter().position(|b| *b == b'\n')
}

// Adds a part to what is kept of a line, and answers how many bytes are kept then.
fn keep(buffer: &mut [u8], kept: Option<usize>, part: &[u8]) -> Option<usize>
    requires { (256 ≤ length buffer.old) × (kept_bytes kept ≤ 256) }
    ensures { (kept_bytes result ≤ 256) × ((line : List ℕ) → Kept line kept buffer.old → Kept (line ++ part.now) result buffer.new)
        × Untouched 256 buffer.old buffer.new }
{
    let n = kept?;
    if part.len() > 256 - n {
        return None;
    }
    let end = n + part.len();
    buffer[n..end].copy_from_slice(part);
    Some(end)
}

// Answers a line of which so much is kept.
pub(crate) fn kept_line(steps: &[u64], buffer: &[u8], kept: Option<usize>, out: &mut [u8]) -> usize
    requires { (256 ≤ length buffer.now) × (kept_bytes kept ≤ 256) × (19 ≤ length out.old) }
    ensures { (result ≤ 19) × (
        (l : List Step) (line : List ℕ) → Holds l steps.now → Kept line kept buffer.now → take result out.new ≡ frame_line l line)
        × Untouched result out.old out.new }
{
    match kept {
        Some(n) => frame_line(steps, &buffer[..n], out),
        None => refusal_line(30, 0, out),
    }
}

// Answers the lines of s, until no line feed is left or out has too little room for another answer. The steps are those of a recipe that was
// read.
pub fn answer_lines(steps: &[u64], s: &[u8], out: &mut [u8]) -> Progress
    requires { 19 ≤ length out.old }
    ensures { (result.put ≤ length out.old) × Answered steps.now s.now 0 result out.new
        × Untouched result.put out.old out.new }
{
    let mut at: usize = 0;
    let mut put: usize = 0;
    while out.len() - put >= LINE {
        let end = match line_end(&s[at..]) {
            Some(n) => at + n,
            None => return Progress { at, put },
        };
        put += frame_line(steps, &s[at..end], &mut out[put..]);
        at = end + 1;
    }
    Progress { at, put }
}

// Takes the chunk's bytes of a line of which a part is kept, and answers the line where it ends in the chunk.
fn take_rest(
    steps: &[u64],
    buffer: &mut [u8],
    kept: Option<usize>,
    chunk: &[u8],
    out: &mut [u8],
) -> Turn
    requires { (256 ≤ length buffer.old) × (kept_bytes kept ≤ 256) × (0 < length chunk.now) × (19 ≤ length out.old) }
    ensures { (0 < result.progress.at) × (result.progress.at ≤ length chunk.now) × (result.progress.put ≤ length out.old)
        × (kept_bytes result.kept ≤ 256) × (
        (l : List Step) (line : List ℕ) → Holds l steps.now → Kept line kept buffer.old → NoFeed line →
        Handled l line (take result.progress.at chunk.now) (take result.progress.put out.new) result.kept buffer.new)
        × Untouched result.progress.put out.old out.new × Untouched 256 buffer.old buffer.new }
{
    let end = match line_end(chunk) {
        Some(end) => end,
        None => {
            return Turn {
                progress: Progress {
                    at: chunk.len(),
                    put: 0,
                },
                kept: keep(buffer, kept, chunk),
            };
        }
    };
    let whole = keep(buffer, kept, &chunk[..end]);
    let put = kept_line(steps, buffer, whole, out);
    Turn {
        progress: Progress { at: end + 1, put },
        kept: Some(0),
    }
}

// Takes the rest of a line of which a part is kept; else line after line, until the chunk is used up or out has too little room for another
// answer.
pub(crate) fn take_lines(
    steps: &[u64],
    buffer: &mut [u8],
    kept: Option<usize>,
    chunk: &[u8],
    out: &mut [u8],
) -> Turn
    requires { (256 ≤ length buffer.old) × (kept_bytes kept ≤ 256) × (0 < length chunk.now) × (19 ≤ length out.old) }
    ensures { (0 < result.progress.at) × (result.progress.at ≤ length chunk.now) × (result.progress.put ≤ length out.old)
        × (kept_bytes result.kept ≤ 256) × (
        (l : List Step) (line : List ℕ) → Holds l steps.now → Kept line kept buffer.old → NoFeed line →
        Handled l line (take result.progress.at chunk.now) (take result.progress.put out.new) result.kept buffer.new)
        × Untouched result.progress.put out.old out.new × Untouched 256 buffer.old buffer.new }
{
    if !matches!(kept, Some(0)) {
        return take_rest(steps, buffer, kept, chunk, out);
    }
    let lines = answer_lines(steps, chunk, out);
    if out.len() - lines.put < LINE {
        return Turn {
            progress: lines,
            kept: Some(0),
        };
    }
    Turn {
        progress: Progress {
            at: chunk.len(),
            put: lines.put,
        },
        kept: keep(buffer, Some(0), &chunk[lines.at..]),
    }
}
