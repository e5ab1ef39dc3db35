// Writes why the sheet of the recipe on standard input is refused, in one line (document 02, W-205): 00 where it is not; else the step, the
// operand's step and the reason's code; or the refusal line of a recipe whose text is refused. Where standard input cannot be read, or
// standard output not be written, it says so on standard error.
//
// No more than 4,993 bytes are read: a text that long is refused by its length, however it goes on.
#![tactic(auto)]

use output::LINE;
use programs::LOOKED_AT;

fn main(rt: HostRuntime) {
    if stdio::refuses_arguments(
        &rt,
        b"usage: explain <recipe >explanation (no argument is taken)\n",
    ) {
        return;
    }
    let mut text = [0u8; LOOKED_AT];
    let mut output = [0u8; LINE];
    let n = match stdio::read_full(&rt, &mut text) {
        Ok(n) => n,
        Err(failed) => {
            stdio::fail(
                &rt,
                "explain: no explanation is written: cannot read standard input",
                &failed.error,
            );
            return;
        }
    };
    let size = output::write_explanation(&text[..n], &mut output);
    if let Err(error) = stdio::write_last(&rt, &output[..size]) {
        stdio::fail(
            &rt,
            "explain: the explanation is incomplete: cannot write standard output",
            &error,
        );
    }
}
