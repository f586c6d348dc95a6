ghost use Rattle.std.specs.Prelude.{◌≡◌, ℕ, ◌+◌, ◌<◌, ◌≤◌, length, take, drop, MatchOption, IfSome, None, option_map, is_some};
ghost use Rattle.nova_word.specs.Quoted.{is_plain, octal_at, escaped_at, byte_at, BeginsQuoted, BeginsUnquoted};
ghost use Rattle.nova_word.specs.Quoted.{QuotedIsUnique, QuotedIsComputed, quoted_read, inside_read, counted};

use crate::numbers::is_digit;

/// Reads the quoted text that `text` begins with, and answers how many bytes it has and the place behind its closing
/// quote.
///
/// Its bytes stand first in `out`, and the rest of `out` stays. Between the quotes stand the bytes 32 to 126 other than
/// `"` and `\`, and the escapes `\r`, `\n`, `\t`, `\\`, `\"` and `\` with three octal digits up to 377. `None` comes
/// exactly where `text` begins with no quoted text, and then `out` stays as it was.
pub fn read_quoted(text: &[u8], out: &mut [u8]) -> Option<(usize, usize)>
    requires room { length text.now ≤ length out.old }
    ensures quoted { MatchOption
        result
        (BeginsUnquoted text.now)
        (λ q. BeginsQuoted text.now (take q.0 out.new) (drop q.1 text.now)) }
    ensures exact { quoted_read text.now ≡ option_map (λ q. (take q.0 out.new, drop q.1 text.now)) result }
    ensures count { IfSome result (λ q. q.0 + 2 ≤ q.1) }
    ensures place { IfSome result (λ q. q.1 ≤ length text.now) }
    ensures behind { IfSome result (λ q. drop q.0 out.new ≡ drop q.0 out.old) }
    ensures kept { result ≡ None → out.new ≡ out.old }
{
    if begins_quoted(text) {
        put_quoted(text, out)
    } else {
        None
    }
}

/// How many bytes the quoted text has that `text` begins with, and what follows its closing quote. `None` comes exactly
/// where it begins with no quoted text.
#[tactic(auto, unfolding(crate::specs::Quoted::quoted_read))]
pub fn skip_quoted(text: &[u8]) -> Option<(usize, &[u8])>
    ensures skipped { option_map (λ q. (q.0, q.1.now)) result ≡ counted 0 (quoted_read text.now) }
    ensures shorter { IfSome result (λ q. q.0 + length q.1.now ≤ length text.now) }
{
    match text.split_first() {
        None => None,
        Some((first, inside)) => {
            if *first == b'"' {
                skip_inside(inside)
            } else {
                None
            }
        }
    }
}

// The same behind the opening quote.
fn skip_inside(inside: &[u8]) -> Option<(usize, &[u8])>
    ensures skipped { option_map (λ q. (q.0, q.1.now)) result ≡ counted 0 (inside_read 0 inside.now) }
    ensures shorter { IfSome result (λ q. q.0 + length q.1.now ≤ length inside.now) }
{
    let mut count = 0;
    let mut rest = inside;
    while !rest.is_empty() {
        if rest[0] == b'"' {
            return Some((count, &rest[1..]));
        }
        match byte_at(rest) {
            None => return None,
            Some((_, width)) => {
                count += 1;
                rest = &rest[width..];
            }
        }
    }
    None
}

// Whether a text begins with a quoted text.
#[tactic(auto, unfolding(crate::specs::Quoted::quoted_read))]
fn begins_quoted(text: &[u8]) -> bool
    ensures { result ≡ is_some (quoted_read text.now) }
{
    match text.split_first() {
        None => false,
        Some((first, inside)) => {
            if *first == b'"' {
                is_closed(inside)
            } else {
                false
            }
        }
    }
}

// Whether the bytes behind an opening quote go on to a closing one.
fn is_closed(inside: &[u8]) -> bool
    ensures { result ≡ is_some (inside_read 0 inside.now) }
{
    let mut rest = inside;
    while !rest.is_empty() {
        if rest[0] == b'"' {
            return true;
        }
        match byte_at(rest) {
            None => return false,
            Some((_, width)) => rest = &rest[width..],
        }
    }
    false
}

// Reads the quoted text, and may write first bytes of `out` where there is none.
fn put_quoted(text: &[u8], out: &mut [u8]) -> Option<(usize, usize)>
    requires room { length text.now ≤ length out.old }
    ensures quoted { MatchOption
        result
        (BeginsUnquoted text.now)
        (λ q. BeginsQuoted text.now (take q.0 out.new) (drop q.1 text.now)) }
    ensures exact { quoted_read text.now ≡ option_map (λ q. (take q.0 out.new, drop q.1 text.now)) result }
    ensures count { IfSome result (λ q. q.0 + 2 ≤ q.1) }
    ensures place { IfSome result (λ q. q.1 ≤ length text.now) }
    ensures behind { IfSome result (λ q. drop q.0 out.new ≡ drop q.0 out.old) }
{
    if text.is_empty() || text[0] != b'"' {
        return None;
    }
    let mut count = 0;
    let mut place = 1;
    while place < text.len() {
        if text[place] == b'"' {
            return Some((count, place + 1));
        }
        match byte_at(&text[place..]) {
            None => return None,
            Some((b, width)) => {
                out[count] = b;
                count += 1;
                place += width;
            }
        }
    }
    None
}

// Whether a byte stands for itself between quotes.
fn is_plain(b: u8) -> bool
    ensures { result ≡ is_plain b }
{
    b >= b' ' && b <= b'~' && b != b'"' && b != b'\\'
}

// The byte that stands first between quotes, and how many bytes stand for it.
#[tactic(auto, unfolding(crate::specs::Quoted::byte_at))]
fn byte_at(text: &[u8]) -> Option<(u8, usize)>
    ensures { result ≡ byte_at text.now }
{
    match text.split_first() {
        None => None,
        Some((first, rest)) => {
            if *first == b'\\' {
                escaped_at(rest)
            } else if is_plain(*first) {
                Some((*first, 1))
            } else {
                None
            }
        }
    }
}

// The same behind a `\`, which is counted too.
#[tactic(auto, unfolding(crate::specs::Quoted::escaped_at))]
fn escaped_at(text: &[u8]) -> Option<(u8, usize)>
    ensures { result ≡ escaped_at text.now }
{
    match text.first() {
        None => None,
        Some(b'r') => Some((b'\r', 2)),
        Some(b'n') => Some((b'\n', 2)),
        Some(b't') => Some((b'\t', 2)),
        Some(b'\\') => Some((b'\\', 2)),
        Some(b'"') => Some((b'"', 2)),
        Some(_) => octal_at(text),
    }
}

// The same of three octal digits.
#[tactic(auto, unfolding(crate::specs::Quoted::octal_at))]
fn octal_at(text: &[u8]) -> Option<(u8, usize)>
    ensures { result ≡ octal_at text.now }
{
    if text.len() >= 3 && is_digit(4, text[0]) && is_digit(8, text[1]) && is_digit(8, text[2]) {
        return Some((
            64 * (text[0] - b'0') + 8 * (text[1] - b'0') + (text[2] - b'0'),
            4,
        ));
    }
    None
}

/// The law that a text begins with at most one quoted text, and that it is the one that is computed.
pub fn quoted_texts_are_unambiguous()
    ensures one { QuotedIsUnique }
    ensures computed { QuotedIsComputed }
{}
