// Number words: 0, or an optional minus sign and one to five digits, the
// first not 0. Read by hand, since the library's `parse` takes +7, 007 and -0.
ghost use Rattle.std.specs.Prelude.{◌≡◌, ◌<◌, IfSome};
ghost use Rattle.tokens.specs.Numbers.{is_sized, plain_value, number_word};

// One to five bytes, the first not 0.
fn is_sized(word: &[u8]) -> bool
    ensures value { result ≡ is_sized word.now }
{
    !word.is_empty() && word.len() <= 5 && word[0] != b'0'
}

// The number that one to five digits write, the first not 0.
fn plain(word: &[u8]) -> Option<u32>
    ensures value { result ≡ plain_value word.now }
    ensures bound { IfSome result (λ n. n < 100000) }
{
    if !is_sized(word) {
        return None;
    }
    let mut n: u32 = 0;
    for b in word {
        if !b.is_ascii_digit() {
            return None;
        }
        n = n * 10 + u32::from(*b - b'0');
    }
    Some(n)
}

// The number that a number word writes; none for any other word. The casts are
// exact, since `plain` stays below 100,000; a `try_from` would add a branch that
// is never taken.
pub fn number(word: &[u8]) -> Option<i32>
    ensures value { result ≡ number_word word.now }
{
    match word {
        [b'0'] => Some(0),
        [b'-', digits @ ..] => Some(-(plain(digits)? as i32)),
        _ => Some(plain(word)? as i32),
    }
}
