//! What a line of a configuration sets.
ghost use Rattle.std.specs.Prelude.{◌≡◌, [], ◌∷◌};
ghost use Rattle.std.specs.Option.{option_and_then};
ghost use Rattle.nl_types.specs.Plain.Decimals.{decimal_in};
ghost use Rattle.nl_protect.specs.Configuration.{amount_in, bytes_of, is_alone, is_level, nothing_if, percent_in, setting_in, value_setting};

use crate::amount::Amount;
use crate::keyword::{Keyword, is_text, keyword_of};
use nl_types::decimal;
use std::str;

/// What a line sets.
#[derive(Clone, Copy)]
pub enum Setting {
    ProtectionPeriod(u64),
    MinCleanSegments(Amount),
    MaxCleanSegments(Amount),
    SegmentsPerClean(u64),
    UrgentSegmentsPerClean(u64),
    MinReclaimableBlocks(Amount),
    UrgentMinReclaimableBlocks(Amount),
    NoEffect,
}

fn number(word: &[u8]) -> Option<u64>
    ensures { result ≡ decimal_in word.now }
{
    match str::from_utf8(word) {
        Ok(text) => decimal(text),
        Err(_) => None,
    }
}

fn percent(number: u64) -> Option<u8>
    ensures { result ≡ percent_in number }
{
    if number <= 100 {
        Some(number as u8)
    } else {
        None
    }
}

fn share(digits: &[u8]) -> Option<u8>
    ensures { result ≡ option_and_then percent_in (decimal_in digits.now) }
{
    let number = number(digits)?;
    percent(number)
}

fn amount(word: &[u8]) -> Option<Amount>
    ensures { result ≡ amount_in word.now }
{
    match word.strip_suffix(b"%") {
        Some(digits) => share(digits).map(Amount::Percent),
        None => number(word).map(Amount::Count),
    }
}

#[tactic(auto, unfolding(crate::specs::Configuration::is_level))]
fn is_level(word: &[u8]) -> bool
    ensures { result ≡ is_level word.now }
{
    is_text(word, "emerg")
        || is_text(word, "alert")
        || is_text(word, "crit")
        || is_text(word, "err")
        || is_text(word, "warning")
        || is_text(word, "notice")
        || is_text(word, "info")
        || is_text(word, "debug")
}

fn nothing_if(test: bool) -> Option<Setting>
    ensures { result ≡ nothing_if test }
{
    if test { Some(Setting::NoEffect) } else { None }
}

fn is_alone(keyword: Keyword) -> bool
    ensures { result ≡ is_alone keyword }
{
    matches!(keyword, Keyword::UseMmap | Keyword::UseSetSuinfo)
}

#[tactic(auto, unfolding(crate::specs::Configuration::value_setting))]
fn value_setting(keyword: Keyword, word: &[u8]) -> Option<Setting>
    ensures { result ≡ value_setting keyword word.now }
{
    match keyword {
        Keyword::ProtectionPeriod => number(word).map(Setting::ProtectionPeriod),
        Keyword::MinCleanSegments => amount(word).map(Setting::MinCleanSegments),
        Keyword::MaxCleanSegments => amount(word).map(Setting::MaxCleanSegments),
        Keyword::SegmentsPerClean => number(word).map(Setting::SegmentsPerClean),
        Keyword::UrgentSegmentsPerClean => number(word).map(Setting::UrgentSegmentsPerClean),
        Keyword::MinReclaimableBlocks => amount(word).map(Setting::MinReclaimableBlocks),
        Keyword::UrgentMinReclaimableBlocks => amount(word).map(
            Setting::UrgentMinReclaimableBlocks,
        ),
        Keyword::CleanCheckInterval
        | Keyword::CleaningInterval
        | Keyword::UrgentCleaningInterval
        | Keyword::RetryInterval => nothing_if(number(word).is_some()),
        Keyword::SelectionPolicy => nothing_if(is_text(word, "timestamp")),
        Keyword::LogPriority => nothing_if(is_level(word)),
        Keyword::UseMmap | Keyword::UseSetSuinfo => None,
    }
}

fn alone_setting(name: &[u8]) -> Option<Setting>
    ensures { result ≡ setting_in (name.now ∷ []) }
{
    let keyword = keyword_of(name)?;
    nothing_if(is_alone(keyword))
}

fn pair_setting(name: &[u8], value: &[u8]) -> Option<Setting>
    ensures { result ≡ setting_in (name.now ∷ value.now ∷ []) }
{
    let keyword = keyword_of(name)?;
    value_setting(keyword, value)
}

/// What the words of a line set, where they are a line of a configuration.
pub(crate) fn setting_of(words: &[&[u8]]) -> Option<Setting>
    ensures { result ≡ setting_in (bytes_of words.now) }
{
    match words {
        [] => Some(Setting::NoEffect),
        [name] => alone_setting(name),
        [name, value] => pair_setting(name, value),
        _ => None,
    }
}
