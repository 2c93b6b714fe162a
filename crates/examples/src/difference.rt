//! Where two texts differ first, by lines.

ghost use Rattle.std.specs.Prelude.{◌≡◌, ℕ, ◌≤◌, ◌↔◌, length, IsNone, IfSome};
ghost use Rattle.examples.specs.Shared.{Shares, line_number};

/// A line that differs: its number, counted from 1, and what stands there in each text, with the line's end.
#[derive(Clone, Copy)]
pub(crate) struct Difference<'a> {
    pub(crate) number: usize,
    pub(crate) expected: &'a [u8],
    pub(crate) got: &'a [u8],
}

/// How many bytes at the front are the same.
fn common(a: &[u8], b: &[u8]) -> usize
    ensures { Shares a.now b.now result }
{
    let mut at = 0;
    while at < a.len() && at < b.len() && a[at] == b[at] {
        at += 1;
    }
    at
}

/// The line that a place stands in, with its end.
fn line_at(text: &[u8], at: usize) -> &[u8]
    requires { at ≤ length text.now }
{
    let start = match text[..at].iter().rposition(|b| *b == b'\n') {
        Some(before) => before + 1,
        None => 0,
    };
    let end = match text[at..].iter().position(|b| *b == b'\n') {
        Some(behind) => at + behind + 1,
        None => text.len(),
    };
    &text[start..end]
}

/// The number of the line that a place stands in, counted from 1.
fn line_number(text: &[u8], at: usize) -> usize
    requires { at ≤ length text.now }
    ensures { result ≡ line_number text.now at }
{
    text[..at].iter().filter(|b| **b == b'\n').count() + 1
}

/// The first line that differs, if one does.
pub(crate) fn first_difference<'a>(expected: &'a [u8], got: &'a [u8]) -> Option<Difference<'a>>
    ensures none { IsNone result ↔ (expected.now ≡ got.now) }
    ensures number { IfSome result
        (λ found. (at : ℕ) × Shares expected.now got.now at × (found.number ≡ line_number expected.now at)) }
{
    let at = common(expected, got);
    if at == expected.len() && at == got.len() {
        return None;
    }
    Some(Difference {
        number: line_number(expected, at),
        expected: line_at(expected, at),
        got: line_at(got, at),
    })
}
