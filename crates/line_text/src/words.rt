ghost use Rattle.std.specs.Prelude.{◌≡◌, ◌≤◌, not, length, take, drop};
ghost use Rattle.std.specs.List.{position, position_or_len};
ghost use Rattle.line_text.specs.Words.{is_blank, past_blanks, word_at, trimmed, is_spelled};

/// Whether a byte is a space or a tab.
pub fn is_blank(b: u8) -> bool
    ensures { result ≡ is_blank b }
{
    b == b' ' || b == b'\t'
}

/// What stands behind the blanks at the front of a text.
#[tactic(auto, unfolding(crate::specs::Words::past_blanks))]
pub fn past_blanks(text: &[u8]) -> &[u8]
    ensures { result.now ≡ past_blanks text.now }
{
    &text[first_other(text)..]
}

/// The bytes of a text before its first blank, and what follows them. There are none where it begins with a blank or is
/// empty.
#[tactic(auto, unfolding(crate::specs::Words::word_at))]
pub fn word_at(text: &[u8]) -> (&[u8], &[u8])
    ensures { (result.0.now, result.1.now) ≡ word_at text.now }
{
    text.split_at(first_blank(text))
}

/// A text without the blanks at its end.
#[tactic(auto, unfolding(crate::specs::Words::trimmed))]
pub fn trimmed(text: &[u8]) -> &[u8]
    ensures { result.now ≡ trimmed text.now }
{
    let mut end = text.len();
    while end > 0 && is_blank(text[end - 1]) {
        end -= 1;
    }
    &text[..end]
}

/// Whether a word is that name, in either case. The name stands in capitals.
pub fn is_spelled(word: &[u8], name: &[u8]) -> bool
    ensures { result ≡ is_spelled word.now name.now }
{
    if name.len() != word.len() {
        return false;
    }
    for (i, letter) in name.iter().enumerate() {
        if *letter != word[i].to_ascii_uppercase() {
            return false;
        }
    }
    true
}

// The place of the first blank.
fn blank_place(text: &[u8]) -> Option<usize>
    ensures { result ≡ position is_blank text.now }
{
    text.iter().position(|b| is_blank(*b))
}

// The place of the first byte that is no blank.
fn other_place(text: &[u8]) -> Option<usize>
    ensures { result ≡ position (λ b. not (is_blank b)) text.now }
{
    text.iter().position(|b| !is_blank(*b))
}

// The first blank, or the end.
#[tactic(auto, using(crate::proofs::PlaceLemmas::place_or_length))]
fn first_blank(text: &[u8]) -> usize
    ensures place { result ≡ position_or_len is_blank text.now }
    ensures within { result ≤ length text.now }
{
    blank_place(text).unwrap_or(text.len())
}

// The first byte that is no blank, or the end.
#[tactic(auto, using(crate::proofs::PlaceLemmas::place_or_length))]
fn first_other(text: &[u8]) -> usize
    ensures place { result ≡ position_or_len (λ b. not (is_blank b)) text.now }
    ensures within { result ≤ length text.now }
{
    other_place(text).unwrap_or(text.len())
}
