// Writes the sheet of the recipe on standard input, or the refusal line of a recipe that is turned down (document 01, "Sheet and run on
// paper"). Where standard input cannot be read, or standard output not be written, it says so on standard error.
//
// No more than 4,993 bytes are read: a text that long is refused by its length, however it goes on.
#![tactic(auto)]

use programs::LOOKED_AT;
use semantics::LONGEST_SHEET;

fn main(rt: HostRuntime) {
    if stdio::refuses_arguments(&rt, b"usage: sheet <recipe >sheet (no argument is taken)\n") {
        return;
    }
    let mut text = [0u8; LOOKED_AT];
    let mut output = [0u8; LONGEST_SHEET];
    let n = match stdio::read_full(&rt, &mut text) {
        Ok(n) => n,
        Err(failed) => {
            stdio::fail(
                &rt,
                "sheet: no sheet is written: cannot read standard input",
                &failed.error,
            );
            return;
        }
    };
    let size = output::write_sheet(&text[..n], &mut output);
    if let Err(error) = stdio::write_last(&rt, &output[..size]) {
        stdio::fail(
            &rt,
            "sheet: the sheet is incomplete: cannot write standard output",
            &error,
        );
    }
}
