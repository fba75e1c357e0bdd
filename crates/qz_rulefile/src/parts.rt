//! Reading the front of a text: words and numbers. Each function answers a value and the bytes after it, or how many bytes
//! are left where the text stops being lawful.
ghost use Rattle.std.specs.Prelude.{◌≡◌, ◌<◌, ◌≤◌, ◌+◌, ◌*◌, [], ◌∷◌, length, true, option_map, ◌==◌, ◌&&◌, nat_lt, nat_le, slice_index_or};
ghost use Rattle.qz_circ.specs.FirstFault.{Gives};
ghost use Rattle.qz_rulefile.specs.Reading as reading;
ghost use Rattle.qz_circ.specs.Vectors.{lists_of};

// How many bytes two texts share from the front on.
fn common_len(text: &[u8], bytes: &[u8]) -> usize
    ensures common { result ≡ reading.common text.now bytes.now }
    ensures within_text { result ≤ length text.now }
    ensures within { result ≤ length bytes.now }
{
    let mut n = 0;
    while n < text.len() {
        if n == bytes.len() {
            return n;
        }
        if text[n] != bytes[n] {
            return n;
        }
        n += 1;
    }
    n
}

// The text with this number.
fn text_at(texts: &[Vec<u8>], k: usize) -> &[u8]
    requires { k < length texts.now }
    ensures { result.now ≡ slice_index_or (lists_of texts.now) k [] }
{
    texts[k].as_slice()
}

// The number of the first text with which the bytes begin, and the bytes after it.
fn first_text<'a>(texts: &[Vec<u8>], bytes: &'a [u8]) -> Option<(usize, &'a [u8])>
    ensures { option_map (λ x. (x.0, x.1.now)) result ≡ reading.first_text (lists_of texts.now) bytes.now }
{
    for k in 0..texts.len() {
        let text = text_at(texts, k);
        if common_len(text, bytes) == text.len() {
            let (_, rest) = bytes.split_at(text.len());
            return Some((k, rest));
        }
    }
    None
}

// The most bytes that one of the texts shares with the bytes.
fn most_shared(texts: &[Vec<u8>], bytes: &[u8]) -> usize
    ensures shared { result ≡ reading.shared (lists_of texts.now) bytes.now }
    ensures within { result ≤ length bytes.now }
{
    let mut most: usize = 0;
    for k in 0..texts.len() {
        most = most.max(common_len(text_at(texts, k), bytes));
    }
    most
}

// One of some texts, told by its number, by looking at all of them.
#[tactic(auto, unfolding(crate::specs::Reading::one_of_at))]
fn any_of<'a>(texts: &[Vec<u8>], bytes: &'a [u8]) -> Result<(usize, &'a [u8]), usize>
    ensures { Gives (λ x. (x.0, x.1.now)) result (reading.one_of_at (lists_of texts.now) bytes.now) }
{
    match first_text(texts, bytes) {
        Some(found) => Ok(found),
        None => Err(bytes.len() - most_shared(texts, bytes)),
    }
}

// One of some texts, told by its number. Where the bytes begin with the guessed one, the others aren't looked at.
pub(crate) fn one_of<'a>(
    texts: &[Vec<u8>],
    guess: usize,
    bytes: &'a [u8],
) -> Result<(usize, &'a [u8]), usize>
    requires { reading.are_apart (lists_of texts.now) ≡ true }
    ensures { Gives (λ x. (x.0, x.1.now)) result (reading.one_of_at (lists_of texts.now) bytes.now) }
{
    if guess < texts.len() {
        let text = text_at(texts, guess);
        if common_len(text, bytes) == text.len() {
            let (_, rest) = bytes.split_at(text.len());
            return Ok((guess, rest));
        }
    }
    any_of(texts, bytes)
}

// The bytes after a word.
#[tactic(auto, unfolding(crate::specs::Reading::one_of_at, crate::specs::Reading::first_text, crate::specs::Reading::shared))]
pub(crate) fn word<'a>(word: &[u8], bytes: &'a [u8]) -> Result<&'a [u8], usize>
    ensures { Gives (λ rest. (0, rest.now)) result (reading.one_of_at (word.now ∷ []) bytes.now) }
{
    let n = common_len(word, bytes);
    if n == word.len() {
        Ok(&bytes[n..])
    } else {
        Err(bytes.len() - n)
    }
}

// The byte ends a number, which is no less than low.
fn ends_number(value: u64, stop: u8, low: u64, b: u8) -> bool
    ensures { result ≡ ((b == stop) && nat_le low value) }
{
    b == stop && low <= value
}

// The byte is one more digit of a number that has some but not nine, none of them a leading zero.
#[tactic(auto, using(std::proofs::lemmas::Bool::Decides::nat_tests))]
fn goes_on(value: u64, b: u8) -> bool
    ensures { result ≡ (nat_lt 0 value && nat_lt value 100000000 && nat_le 48 b && nat_lt b 58) }
{
    0 < value && value < 100_000_000 && b'0' <= b && b < b'9' + 1
}

// The rest of a number behind the digits that make start, and the byte that ends it. It is no less than low.
fn digits<'a>(start: u64, stop: u8, low: u64, bytes: &'a [u8]) -> Result<(u64, &'a [u8]), usize>
    requires { start < 1000000000 }
    ensures { Gives (λ x. (x.0, x.1.now)) result (reading.digits_at stop low start bytes.now) }
{
    let mut value = start;
    let mut rest = bytes;
    while let Some((b, behind)) = rest.split_first() {
        if ends_number(value, stop, low, *b) {
            return Ok((value, behind));
        }
        if !goes_on(value, *b) {
            return Err(rest.len());
        }
        value = value * 10 + u64::from(*b - b'0');
        rest = behind;
    }
    Err(0)
}

// A number of at most nine digits without leading zeros, and the byte that ends it. It is no less than low.
#[tactic(auto, unfolding(crate::specs::Reading::number_at))]
pub(crate) fn number(stop: u8, low: u64, bytes: &[u8]) -> Result<(u64, &[u8]), usize>
    ensures { Gives (λ x. (x.0, x.1.now)) result (reading.number_at stop low bytes.now) }
{
    let [b, rest @ ..] = bytes else {
        return Err(0);
    };
    if *b == b'0' && low == 0 {
        return digits(0, stop, low, rest);
    }
    if b'0' < *b && *b <= b'9' {
        return digits(u64::from(*b - b'0'), stop, low, rest);
    }
    Err(bytes.len())
}
