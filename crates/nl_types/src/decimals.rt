//! Decimal numbers in words.
ghost use Rattle.std.specs.Prelude.{◌≡◌, SomeIff};
ghost use Rattle.std.specs.Str.Parse.{digits_value};
ghost use Rattle.nl_types.specs.Plain.Decimals.{IsDecimal, decimal_in};

fn digits(word: &str) -> Option<u64>
    ensures { SomeIff result (IsDecimal word.now) (digits_value 10 word.now) }
{
    // The library's own reading takes a sign.
    if word.starts_with('+') {
        return None;
    }
    word.parse().ok()
}

/// The number that a word of decimal digits alone stands for, if it is a `u64`.
pub fn decimal(word: &str) -> Option<u64>
    ensures { result ≡ decimal_in word.now }
{
    digits(word)
}
