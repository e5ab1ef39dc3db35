// A case to run: what a line of input holds, and the call that it asks for.
ghost use Rattle.std.specs.Prelude.{◌≡◌, length};
ghost use Rattle.vectors.specs.Line.{separated_by, case_of};

// The bytes of a line of input, with its line feed.
pub const LINE: usize = 40;

// The function's number, the width in bits, and the operands; y is 0 where the function takes one.
#[derive(Drop)]
pub struct Case {
    pub function: u64,
    pub width: u64,
    pub x: u64,
    pub y: u64,
}

// Whether the fields of a line are parted by spaces, and a line feed ends it.
fn separated(line: &[u8]) -> bool
    requires { length line.now ≡ 40 }
    ensures { result ≡ separated_by line.now }
{
    if line[2] != b' ' {
        return false;
    }
    if line[5] != b' ' {
        return false;
    }
    if line[22] != b' ' {
        return false;
    }
    line[39] == b'\n'
}

// The case of a line, unless it is malformed.
pub(crate) fn parse(line: &[u8]) -> Option<Case>
    requires { length line.now ≡ 40 }
    ensures { result ≡ case_of line.now }
{
    if !separated(line) {
        return None;
    }
    let Some(function) = hexadecimal::read(&line[0..2]) else {
        return None;
    };
    let Some(width) = hexadecimal::read(&line[3..5]) else {
        return None;
    };
    let Some(x) = hexadecimal::read(&line[6..22]) else {
        return None;
    };
    let Some(y) = hexadecimal::read(&line[23..39]) else {
        return None;
    };
    Some(Case {
        function,
        width,
        x,
        y,
    })
}
