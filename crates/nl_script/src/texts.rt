//! What the program prints, to the byte, and what it ends with.
//!
//! Each function writes one text of the program: a listing's header or line, an answer, a refusal. Its
//! contract says which bytes the writer got, by a definition in `specs/`. Where the writer fails, a part of
//! the text may be written.

mod answers;
mod checkpoints;
mod columns;
mod ends;
mod refusals;
mod segments;
mod streams;

pub use answers::{clean_line, content_line, name_line, name_lines, number_line, stat_text};
pub use checkpoints::{cp_header, cp_line, cp_lines};
pub use columns::{left, right};
pub use ends::Done;
pub use refusals::{
    StartStep, changed_text, in_use_text, refusal_text, save_text, start_text, taken_text,
    unread_text, unwritten_text, usage_text,
};
pub use segments::{SegmentRow, listed_seg_line, seg_header, seg_line, seg_lines};
pub use streams::{StandardStream, notice_text, stream_text};
