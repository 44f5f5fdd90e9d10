//! A line, as words.
ghost use Rattle.std.specs.Prelude.{MatchOption, IfOk, IfSome, IsErrOf, map};
ghost use Rattle.nl_commands.specs.Splitting.{IsPlainWord, IsFirstWord, IsOpen, IsTrimmed, AreWords, HasOpenWord};

use crate::error::LineError;
use std::alloc::Global;

/// What parts words.
const BLANKS: [char; 2] = [' ', '\t'];
/// So many words take no second request for memory.
const USUAL_WORDS: usize = 4;

/// The first word of a text that begins with neither a blank nor a quotation mark, and what follows,
/// where no tab ends it. A search for one character takes many bytes at once.
fn spaced_word(text: &str) -> Option<(&str, &str)>
    ensures { IfSome result (λ parts. IsPlainWord text.now parts.0.now parts.1.now) }
{
    let parts = text.split_once(' ').unwrap_or((text, ""));
    if parts.0.contains('\t') {
        return None;
    }
    Some(parts)
}

/// The first word of a text that begins with neither a blank nor a quotation mark, and what follows.
/// `has_tabs` tells whether to expect tabs: with many of them, a search for the next space would go
/// past many words for each one.
fn plain_word(text: &str, has_tabs: bool) -> (&str, &str)
    ensures { IsPlainWord text.now result.0.now result.1.now }
{
    let spaced = if has_tabs { None } else { spaced_word(text) };
    match spaced {
        Some(parts) => parts,
        None => text.split_once(BLANKS).unwrap_or((text, "")),
    }
}

/// The first word of a text that begins with one, and what follows it. There is none where the text
/// begins with a quotation mark and has no other.
fn first_word(text: &str, has_tabs: bool) -> Option<(&str, &str)>
    ensures { MatchOption result (IsOpen text.now)
        (λ parts. IsFirstWord text.now parts.0.now parts.1.now) }
{
    match text.strip_prefix('"') {
        Some(quoted) => quoted.split_once('"'),
        None => Some(plain_word(text, has_tabs)),
    }
}

/// The text behind the blanks that begin it.
fn trimmed(text: &str) -> &str
    ensures { IsTrimmed text.now result.now }
{
    text.trim_start_matches(BLANKS)
}

/// The words of a line. They are parted by spaces and tabs. One that begins with a quotation mark
/// goes to the next, and holds what stands between; what follows it begins a new word.
///
/// # Errors
/// `Usage` where a quotation mark is open, `Memory` where there is none for the list.
pub fn words_of(alloc: Global, line: &str) -> Result<Vec<&str>, LineError>
    ensures words { IfOk result (λ words. AreWords line.now (map (λ w. w.now) words.items)) }
    ensures open { IsErrOf result LineError.Usage → HasOpenWord line.now }
{
    let has_tabs = line.contains('\t');
    let mut rest = trimmed(line);
    if rest.is_empty() {
        return Ok(Vec::new(alloc));
    }
    let mut words = Vec::with_capacity(alloc, USUAL_WORDS)?;
    while !rest.is_empty() {
        let Some((word, behind)) = first_word(rest, has_tabs) else {
            return Err(LineError::Usage);
        };
        words.push(word)?;
        rest = trimmed(behind);
    }
    Ok(words)
}
