// Many frames of one recipe in one call: frame lines answered as the run program answers them, the recipe's text read once (document 01, "Sheet
// and run on paper").
#![tactic(auto)]

ghost use Rattle.std.specs.Prelude.{◌≡◌, length};
ghost use Rattle.programs.specs.Batch.{answer_of, bytes_of, batch_of};
ghost use Rattle.batch.specs.Answer.{answered};

use calls::Refused;
use output::LINE;
use programs::{LinesAnswer, Progress};
use reader::read;
use recipe::MOST_WORDS;
use stream::answer_lines;

// What C is told of the lines.
fn answer(lines: Result<Progress, Refused>) -> LinesAnswer
    ensures { result ≡ answered lines }
{
    match lines {
        Ok(done) => LinesAnswer {
            refusal: 0,
            place: 0,
            read: done.at as u64,
            written: done.put as u64,
        },
        Err(why) => LinesAnswer {
            refusal: why.number(),
            place: why.place(),
            read: 0,
            written: 0,
        },
    }
}

// The lines of a recipe's text.
fn lines_on_text(text: &[u8], lines: &[u8], out: &mut [u8]) -> Result<Progress, Refused>
    ensures { (answered result ≡ answer_of (batch_of text.now lines.now (length out.old)))
        × (out.new ≡ bytes_of (batch_of text.now lines.now (length out.old)) out.old) }
{
    let mut steps = [0u64; MOST_WORDS];
    let n = read(text, &mut steps)?;
    if out.len() < LINE {
        return Err(Refused::Room);
    }
    let size = 3 * n;
    Ok(answer_lines(&steps[..size], lines, out))
}

// Answers frame lines, each by a line of its own: kind 2 digits and word 16, or ff, a refusal's number and its place, 2 digits each. A refused
// frame does not stop the next. A line counts where its line feed is there, and it goes on while there is room for the longest answer. It
// answers how many bytes of the lines it has read and how many bytes it has written; the rest of the bytes stays as lent.
//
// So a caller goes on from where it stopped, with what was not read and the lines that follow: the answers one after another are those of the
// run program (`programs/proofs/Batches.antt`, joined). A last line without its line feed is the caller's to end.
//
// Refuses, in this order: 10 to 17 as the reader does; 40 where there are fewer bytes than the longest answer has, at place 0. No byte is
// written then.
pub fn run_lines(text: &[u8], lines: &[u8], out: &mut [u8]) -> LinesAnswer
    ensures { (result ≡ answer_of (batch_of text.now lines.now (length out.old)))
        × (out.new ≡ bytes_of (batch_of text.now lines.now (length out.old)) out.old) }
{
    answer(lines_on_text(text, lines, out))
}
