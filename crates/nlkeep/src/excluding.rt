//! What a person leaves out of a backup, and which words of that leave nothing out.
use crate::asking::word;
use crate::complaining::complain;
use crate::faults::{Fault, fault_at};
use clap::ArgMatches;
use nl_folders::Path;
use nl_host::Pattern;
use nl_manifests::{HostEntry, HostObject};
use nl_names::Name;
use std::alloc::{AllocError, Global};
use std::{fs, io, str};

/// The pattern of a word. `./` in front says that it is a path, and nothing else.
fn pattern_of(word: &str) -> Pattern<'_> {
    match word.strip_prefix('.') {
        Some(rest) if rest.starts_with('/') => Pattern::of(rest),
        _ => Pattern::of(word),
    }
}

/// The patterns of what a person leaves out. The folder itself can't be.
pub fn patterns<'a>(alloc: Global, matches: &ArgMatches<'a>) -> Result<Vec<Pattern<'a>>, Fault> {
    let words = matches.get_strs("exclude").unwrap_or(&[]);
    let mut patterns = Vec::with_capacity(alloc, words.len())?;
    for word in words {
        if *word == "." || *word == "./" || *word == "/" {
            return Err(fault_at(alloc, word, "is FOLDER itself, which can't be left out"));
        }
        patterns.push(pattern_of(word))?;
    }
    Ok(patterns)
}

/// A word that leaves nothing out, as far as is known.
#[derive(Clone, Copy)]
struct Unmet<'a> {
    word: &'a str,
    pattern: Pattern<'a>,
}

fn all_unmet<'a>(alloc: Global, words: &[&'a str]) -> Result<Vec<Unmet<'a>>, AllocError> {
    let mut all = Vec::with_capacity(alloc, words.len())?;
    for word in words {
        all.push(Unmet {
            word: *word,
            pattern: pattern_of(word),
        })?;
    }
    Ok(all)
}

/// Those that don't mean what stands at a path below the folder, under this name.
fn still_unmet<'a>(
    alloc: Global,
    all: &[Unmet<'a>],
    path: &str,
    name: &str,
) -> Result<Vec<Unmet<'a>>, AllocError> {
    let mut rest = Vec::with_capacity(alloc, all.len())?;
    for unmet in all {
        if !unmet.pattern.means(path, name) {
            rest.push(*unmet)?;
        }
    }
    Ok(rest)
}

/// A path below the folder, with slashes between its names. None where it is no text.
fn path_text(alloc: Global, path: &[Name]) -> Result<Option<String>, AllocError> {
    let mut text = String::new(alloc);
    for name in path {
        let Ok(name) = str::from_utf8(name.as_slice()) else {
            return Ok(None);
        };
        if !text.is_empty() {
            text.push_str("/")?;
        }
        text.push_str(name)?;
    }
    Ok(Some(text))
}

/// Those that mean nothing in a folder below the one that is kept. What can't be listed any more has nothing.
fn unmet_in<'a>(
    rt: &HostRuntime,
    root: &str,
    below: &str,
    all: Vec<Unmet<'a>>,
) -> io::Result<Vec<Unmet<'a>>> {
    let alloc = rt.alloc();
    let folder = format!(in alloc; "{root}/{below}")?;
    let Ok(entries) = fs::read_dir(rt, folder.as_str()) else {
        return Ok(all);
    };
    let mut all = all;
    for entry in entries {
        if let Ok(entry) = entry {
            let name = entry.file_name();
            let path = if below.is_empty() {
                String::from_str(alloc, name)?
            } else {
                format!(in alloc; "{below}/{name}")?
            };
            all = still_unmet(alloc, all.as_slice(), path.as_str(), name)?;
        }
    }
    Ok(all)
}

/// Those that mean nothing in any folder of what was kept.
fn unmet_words<'a>(
    rt: &HostRuntime,
    root: &str,
    tree: &[(Path, HostEntry)],
    words: &[&'a str],
) -> io::Result<Vec<Unmet<'a>>> {
    let mut all = all_unmet(rt.alloc(), words)?;
    for (path, entry) in tree {
        if all.is_empty() || !matches!(entry.object, HostObject::Directory) {
            continue;
        }
        if let Some(below) = path_text(rt.alloc(), path.as_slice())? {
            all = unmet_in(rt, root, below.as_str(), all)?;
        }
    }
    Ok(all)
}

/// Tells each word that leaves nothing out of the folder whose tree was kept, a line each, on standard error.
pub fn tell_unmet(
    rt: &HostRuntime,
    matches: &ArgMatches<'_>,
    tree: &[(Path, HostEntry)],
) -> Result<(), Fault> {
    let words = matches.get_strs("exclude").unwrap_or(&[]);
    let unmet = unmet_words(rt, word(matches, "FOLDER"), tree, words)?;
    for one in unmet.as_slice() {
        complain(
            rt,
            format_args!("--exclude {}: leaves nothing out", one.word),
        );
    }
    Ok(())
}
