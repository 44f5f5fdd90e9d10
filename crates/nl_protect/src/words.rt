//! The lines of a text, and their words.
ghost use Rattle.std.specs.Prelude.{◌≡◌, IfOk};
ghost use Rattle.std.specs.List.{before_first, slice_split};
ghost use Rattle.nl_types.specs.Plain.Characters.{is_blank};
ghost use Rattle.nl_protect.specs.Configuration.{bytes_of, is_comment, lines_in, words_in};

use std::alloc::{AllocError, Global};

pub(crate) fn lines_of(alloc: Global, text: &[u8]) -> Result<Vec<&[u8]>, AllocError>
    ensures { IfOk result (λ lines. bytes_of lines.items ≡ lines_in text.now) }
{
    text.split(|byte| *byte == b'\n').collect(alloc)
}

/// What stands before a comment.
fn before_comment(line: &[u8]) -> &[u8]
    ensures { result.now ≡ before_first is_comment line.now }
{
    match line.iter().position(|byte| *byte == b'#') {
        Some(at) => &line[..at],
        None => line,
    }
}

fn parts_of(alloc: Global, text: &[u8]) -> Result<Vec<&[u8]>, AllocError>
    ensures { IfOk result (λ parts. bytes_of parts.items ≡ slice_split is_blank text.now) }
{
    text.split(|byte| *byte == b' ' || *byte == b'\t')
        .collect(alloc)
}

/// The words of a line.
pub(crate) fn words_of(alloc: Global, line: &[u8]) -> Result<Vec<&[u8]>, AllocError>
    ensures { IfOk result (λ words. bytes_of words.items ≡ words_in line.now) }
{
    let mut words = Vec::new(alloc);
    for part in parts_of(alloc, before_comment(line))?.as_slice() {
        if !part.is_empty() {
            words.push(*part)?;
        }
    }
    Ok(words)
}
