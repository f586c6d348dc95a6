ghost use Rattle.std.specs.Prelude.{◌≡◌, ◌+◌, ◌<◌, ◌≤◌, [], ◌∷◌, length, take, drop, if◌then◌else◌};
ghost use Rattle.expect_actions.specs.Actions.{next_place, ends_action, pieces, split};

/// Where a byte of a text stands: outside of quotes, within them, or within them behind a `\` that takes it along.
#[derive(Clone, Copy)]
pub enum Place {
    Outside,
    Within,
    Escaped,
}

// Where the byte behind one stands.
fn next_place(place: Place, b: u8) -> Place
    ensures { result ≡ next_place place b }
{
    match place {
        Place::Outside => {
            if b == b'"' {
                Place::Within
            } else {
                Place::Outside
            }
        }
        Place::Within => {
            if b == b'"' {
                Place::Outside
            } else if b == b'\\' {
                Place::Escaped
            } else {
                Place::Within
            }
        }
        Place::Escaped => Place::Within,
    }
}

// Whether a byte ends an action.
fn ends_action(place: Place, b: u8) -> bool
    ensures { result ≡ ends_action place b }
{
    match place {
        Place::Outside => b == b';',
        _ => false,
    }
}

// 1 where a byte ends an action, and else 0.
fn ends(place: Place, b: u8) -> usize
    ensures { result ≡ (if ends_action place b then 1 else 0) }
{
    if ends_action(place, b) { 1 } else { 0 }
}

/// How many actions a text has.
pub(crate) fn count_actions(text: &[u8]) -> usize
    ensures count { result ≡ length (split text.now) }
    ensures few { result ≤ length text.now + 1 }
{
    if text.is_empty() { 0 } else { count_ends(text) }
}

// How many actions a text has, of which one at least.
fn count_ends(text: &[u8]) -> usize
    ensures count { result ≡ length (pieces text.now) }
    ensures few { result ≤ length text.now + 1 }
{
    let mut count = 1;
    let mut place = Place::Outside;
    for b in text {
        count += ends(place, *b);
        place = next_place(place, *b);
    }
    count
}

// The place of the first byte that ends an action; the length where none does.
fn action_end(text: &[u8]) -> usize
    ensures within { result ≤ length text.now }
    ensures more { result < length text.now
        → pieces text.now ≡ take result text.now ∷ pieces (drop (result + 1) text.now) }
    ensures last { result ≡ length text.now → pieces text.now ≡ text.now ∷ [] }
{
    let mut place = Place::Outside;
    for (k, b) in text.iter().enumerate() {
        if ends_action(place, *b) {
            return k;
        }
        place = next_place(place, *b);
    }
    text.len()
}

/// The first action of a text that is not empty, and the text of the others, where there are some.
pub(crate) fn split_action(text: &[u8]) -> (&[u8], &[u8])
    ensures first { take 1 (pieces text.now) ≡ result.0.now ∷ [] }
    ensures others { 1 < length (pieces text.now)
        → drop 1 (pieces text.now) ≡ pieces result.1.now }
    ensures short { length result.0.now ≤ length text.now }
    ensures shorter { length result.1.now ≤ length text.now }
{
    let end = action_end(text);
    if end < text.len() {
        (&text[..end], &text[end + 1..])
    } else {
        text.split_at(end)
    }
}
