ghost use Rattle.std.specs.Prelude.{◌≡◌, ◌<◌, ◌≤◌, ◌↔◌, ◌==◌, [], length, IsNone, IfSome};
ghost use Rattle.std.specs.List.{position};
ghost use Rattle.script_text.specs.Lines.{first_line, without_cr, command_line, behind_line, line_cost};

/// The first line of a script, and what follows it.
#[derive(Clone, Copy, Debug, PartialEq, Eq)]
pub struct Line<'a> {
    /// The line without its LF and a CR directly before that.
    pub text: &'a [u8],
    /// How many bytes the line has as it stands in the script: a CR before the LF is counted, the LF is not.
    pub bytes: usize,
    /// What follows the line and its LF.
    pub rest: &'a [u8],
}

/// The first line of a script, or of what is left of one. `None` comes exactly where no byte is left.
///
/// A line ends at an LF, which the last may lack. A CR at its end stays where no LF follows.
pub fn next_line(script: &[u8]) -> Option<Line<'_>>
    ensures none { IsNone result ↔ (script.now ≡ []) }
    ensures text { IfSome result (λ l. l.text.now ≡ command_line script.now) }
    ensures bytes { IfSome result (λ l. l.bytes ≡ length (first_line script.now)) }
    ensures rest { IfSome result (λ l. l.rest.now ≡ behind_line script.now) }
    ensures shorter { IfSome result (λ l. length l.rest.now < length script.now) }
{
    if script.is_empty() {
        return None;
    }
    let bytes = first_line_end(script);
    if bytes == script.len() {
        return Some(Line {
            text: script,
            bytes,
            rest: &script[bytes..],
        });
    }
    Some(Line {
        text: without_cr(&script[..bytes]),
        bytes,
        rest: &script[bytes + 1..],
    })
}

/// What a line of that many bytes costs in units of the budget, where a CR before its LF is counted and the LF is not:
/// one, and one more for each whole 512 bytes past its first 512.
pub fn line_cost(bytes: usize) -> u64
    ensures { result ≡ line_cost bytes }
{
    (bytes as u64 / 512).max(1)
}

// A line without a CR at its end.
fn without_cr(line: &[u8]) -> &[u8]
    ensures { result.now ≡ without_cr line.now }
{
    let end = line.len();
    if end > 0 && line[end - 1] == b'\r' {
        &line[..end - 1]
    } else {
        line
    }
}

// The place of the first LF.
fn line_feed_place(script: &[u8]) -> Option<usize>
    ensures { result ≡ position (λ b. b == 10) script.now }
{
    script.iter().position(|b| *b == b'\n')
}

// How many bytes stand before the first LF, or the end.
#[tactic(auto, using(crate::proofs::LineLemmas::place_or_end, crate::proofs::LineLemmas::first_line_within))]
fn first_line_end(script: &[u8]) -> usize
    ensures end { result ≡ length (first_line script.now) }
    ensures within { result ≤ length script.now }
{
    line_feed_place(script).unwrap_or(script.len())
}
