// What the programs put out: a refusal's line, the answer to a frame, a sheet, an explanation.
#![tactic(auto)]

mod answer;
mod explain;
mod sheet;

pub use answer::{LINE, frame_line, refusal_line};
pub use explain::write_explanation;
pub use sheet::write_sheet;
