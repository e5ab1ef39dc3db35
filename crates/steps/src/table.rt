// The step table (document 01, "Recipe text"; steps 24 and 40 to 42: document 02, W-204 and W-208). What the reader asks of an opcode, and whether
// the run takes an input for it, is read off its row.
ghost use Rattle.std.specs.Prelude.{◌≡◌};
ghost use Rattle.recipe.specs.Table.{row_of, answer_kind, is_input, kind_number};

use recipe::{Kind, Row};

// The opcode's row. The tests go through the table in order: one `match` over all of it would become a table of jumps, which is too big to
// be inlined.
pub fn row_of(opcode: u8) -> Row
    ensures { result ≡ row_of opcode }
{
    if opcode < 0x10 {
        return match opcode {
            0x01 => Row::Input(Kind::Double),
            0x02 => Row::Input(Kind::Whole),
            0x03 => Row::Constant(Kind::Double),
            0x04 => Row::Constant(Kind::Whole),
            _ => Row::Unknown,
        };
    }
    if opcode < 0x18 {
        return Row::Unary(Kind::Double, Kind::Double);
    }
    if opcode == 0x18 {
        return Row::Unary(Kind::Double, Kind::Whole);
    }
    if opcode < 0x20 {
        return Row::Unknown;
    }
    if opcode < 0x23 {
        return Row::Binary(Kind::Double, Kind::Double, Kind::Double);
    }
    if opcode == 0x23 {
        return Row::Binary(Kind::Double, Kind::Whole, Kind::Double);
    }
    if opcode == 0x24 {
        return Row::Binary(Kind::Double, Kind::Double, Kind::Double);
    }
    if opcode < 0x30 {
        return Row::Unknown;
    }
    if opcode < 0x32 {
        return Row::Binary(Kind::Whole, Kind::Whole, Kind::Whole);
    }
    if opcode == 0x32 {
        return Row::Unary(Kind::Whole, Kind::Double);
    }
    if opcode < 0x40 {
        return Row::Unknown;
    }
    if opcode < 0x43 {
        return Row::Binary(Kind::Double, Kind::Double, Kind::Double);
    }
    Row::Unknown
}

// The kind of a step's value; of no opcode of the table, double.
pub fn answer_kind(row: Row) -> Kind
    ensures { result ≡ answer_kind row }
{
    match row {
        Row::Unknown => Kind::Double,
        Row::Input(k) | Row::Constant(k) | Row::Unary(_, k) | Row::Binary(_, _, k) => k,
    }
}

// Whether a step's value comes from the frame.
pub fn is_input(row: Row) -> bool
    ensures { result ≡ is_input row }
{
    matches!(row, Row::Input(_))
}

// Whether a step with this opcode is an input. On its own, so that the compiler folds the table into the one test that is left of it before it
// puts that to use.
pub fn declares_input(opcode: u8) -> bool
    ensures { result ≡ is_input (row_of opcode) }
{
    is_input(row_of(opcode))
}

// The kind's number in a sheet and in a run's answer: 1 double, 2 whole.
pub fn kind_number(kind: Kind) -> u8
    ensures { result ≡ kind_number kind }
{
    match kind {
        Kind::Double => 1,
        Kind::Whole => 2,
    }
}
