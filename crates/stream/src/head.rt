// The recipe at the start of the input, taken from chunks that end anywhere, up to the empty line.
ghost use Rattle.std.specs.Prelude.{◌≡◌, List, ◌++◌, ℕ, ◌≤◌, ◌<◌, length, take};
ghost use Rattle.programs.specs.Output.{looked_at, part_after};
ghost use Rattle.programs.specs.Stage.{parts, Untouched};

use programs::{End, LOOKED_AT};

// What a piece of a chunk came to: the place after it, the bytes of the recipe so far, and its end.
#[derive(Drop)]
pub struct Head {
    pub at: usize,
    pub count: usize,
    pub end: End,
}

// Adds the chunk's bytes to the count bytes of the recipe that stand in the buffer, up to its end.
pub(crate) fn take_recipe(buffer: &mut [u8], count: usize, chunk: &[u8]) -> Head
    requires { (looked_at ≤ length buffer.old) × (count ≤ looked_at) × (0 < length chunk.now) }
    ensures { (0 < result.at) × (result.at ≤ length chunk.now) × (result.count ≤ looked_at) × ((s : List ℕ) →
        part_after (take count buffer.old) (take result.at chunk.now ++ s) ≡ parts result.end (take result.count buffer.new) s)
        × Untouched result.count buffer.old buffer.new }
{
    let mut n = count;
    let mut last = if n > 0 { buffer[n - 1] } else { b'\n' };
    for (i, b) in chunk.iter().enumerate() {
        if n == LOOKED_AT {
            return Head {
                at: i + 1,
                count: n,
                end: End::Endless,
            };
        }
        if *b == b'\n' {
            if last == b'\n' {
                return Head {
                    at: i + 1,
                    count: n,
                    end: End::Empty,
                };
            }
        }
        buffer[n] = *b;
        n += 1;
        last = *b;
    }
    Head {
        at: chunk.len(),
        count: n,
        end: End::Missing,
    }
}
