//! Patterns of paths, as `--exclude` takes them.
ghost use Rattle.std.specs.Prelude.{◌≡◌, ◌==◌, if◌then◌else◌};
ghost use Rattle.nl_types.specs.Plain.Characters.{slash};
ghost use Rattle.nl_host.specs.Patterns.{has_form, has_slash, stands_for, without_end, without_front};

/// Whether one byte of a pattern stands for a byte.
fn stands_for(p: u8, c: u8) -> bool
    ensures { result ≡ stands_for p c }
{
    if p == b'?' { c != b'/' } else { p == c }
}

/// Whether a text has the form of a pattern, in which `*` stands for any bytes but `/`, and `?` for one. It
/// takes as many steps as there are ways to part the text at the stars.
pub fn matches(pattern: &[u8], text: &[u8]) -> bool
    ensures { result ≡ has_form pattern.now text.now }
{
    match (pattern, text) {
        ([], []) => true,
        ([], [_, ..]) => false,
        ([b'*', rest @ ..], []) => matches(rest, text),
        ([b'*', rest @ ..], [c, left @ ..]) => {
            matches(rest, text) || (*c != b'/' && matches(pattern, left))
        }
        ([_, ..], []) => false,
        ([p, rest @ ..], [c, left @ ..]) => stands_for(*p, *c) && matches(rest, left),
    }
}

// ---- words of a person

/// What stands behind the slashes in front.
fn without_front(text: &[u8]) -> &[u8]
    ensures { result.now ≡ without_front text.now }
{
    for (index, byte) in text.iter().enumerate() {
        if *byte != b'/' {
            return &text[index..];
        }
    }
    &[]
}

/// The end of what is to stand, where one more byte ends at `next`.
fn end_with(end: usize, next: usize, byte: u8) -> usize
    ensures { result ≡ (if byte == slash then end else next) }
{
    if byte == b'/' { end } else { next }
}

/// What stands before the slashes at the end.
fn without_end(text: &[u8]) -> &[u8]
    ensures { result.now ≡ without_end text.now }
{
    let mut end = 0;
    for (index, byte) in text.iter().enumerate() {
        end = end_with(end, index + 1, *byte);
    }
    &text[..end]
}

fn has_slash(text: &[u8]) -> bool
    ensures { result ≡ has_slash text.now }
{
    text.iter().any(|byte| *byte == b'/')
}

/// What is left out by a person: a path below the folder, or a name anywhere in it.
#[derive(Clone, Copy)]
pub struct Pattern<'a> {
    /// Without slashes at its ends.
    pub text: &'a [u8],
    /// Whether it has the form of a path, and not of a name alone.
    pub is_path: bool,
}

impl<'a> Pattern<'a> {
    ghost use Rattle.nl_host.specs.Selections.{means};

    /// A word with a slash before its last name is the pattern of a path, another one that of a name. Slashes
    /// at its end say nothing.
    pub fn of(word: &'a str) -> Pattern<'a>
        ensures text { result.text.now ≡ without_front (without_end word.entry.now) }
        ensures path { result.is_path ≡ has_slash (without_end word.entry.now) }
    {
        let text = without_end(word.as_bytes());
        Pattern {
            text: without_front(text),
            is_path: has_slash(text),
        }
    }

    /// Whether it means what stands at a path below the folder, whose names have slashes between them, and
    /// which has this name.
    pub fn means(&self, path: &str, name: &str) -> bool
        ensures { result ≡ means self.now path.now name.now }
    {
        let text = if self.is_path { path } else { name };
        matches(self.text, text.as_bytes())
    }
}
