//! Blanks and comments, skipped in a run.
ghost use Rattle.std.specs.Prelude.{◌≡◌, ◌+◌, ◌<◌, ◌≤◌, ◌^◌, length};
ghost use Rattle.rare_sexpr.specs.inner.Words as specs;
ghost use Rattle.rare_sexpr.specs.inner.Gaps.{IsGapEnd, HasRun, is_in_comment, is_line_blank};
ghost use Rattle.rare_sexpr.specs.inner.Scan.{IsRun};

use crate::bytes::{Class, class_of, place_after};
use rare_base::Place;

/// Where a gap ends, and whether in a comment that may go on.
#[derive(Clone, Copy, Debug, PartialEq, Eq)]
pub struct Gap {
    pub at: usize,
    pub place: Place,
    pub in_comment: bool,
}

// What a byte is to a gap: whether a comment goes on behind it, or none where it ends the gap.
fn gap_step(in_comment: bool, byte: u8) -> Option<bool>
    ensures { result ≡ specs.gap_step in_comment byte }
{
    if in_comment {
        return Some(byte != b'\n' && byte != b'\r');
    }
    if byte == b' ' {
        return Some(false);
    }
    match class_of(byte) {
        Class::Blank | Class::LineFeed => Some(false),
        Class::Semicolon => Some(true),
        _ => None,
    }
}

// The end of the run of blanks on a line.
fn blank_run(bytes: &[u8], at: usize) -> usize
    requires { at ≤ length bytes.now }
    ensures { IsRun is_line_blank bytes.now at result }
{
    let mut i = at;
    'run: while i < bytes.len() && (bytes[i] == b' ' || bytes[i] == b'\t' || bytes[i] == b'\r') {
        i += 1;
    }
    i
}

// The end of the run of bytes of a comment.
fn comment_run(bytes: &[u8], at: usize) -> usize
    requires { at ≤ length bytes.now }
    ensures { IsRun is_in_comment bytes.now at result }
{
    let mut i = at;
    'run: while i < bytes.len() && bytes[i] != b'\n' && bytes[i] != b'\r' {
        i += 1;
    }
    i
}

// Passes over the bytes of the line that leave a gap as it is.
fn pass_run(bytes: &[u8], gap: Gap) -> Gap
    requires within { gap.at ≤ length bytes.now }
    requires column { gap.place.column + length bytes.now < 2 ^ 32 + gap.at }
    ensures { HasRun bytes.now gap result }
{
    let end = if gap.in_comment {
        comment_run(bytes, gap.at)
    } else {
        blank_run(bytes, gap.at)
    };
    Gap {
        at: end,
        place: Place {
            line: gap.place.line,
            column: gap.place.column + (end - gap.at) as u32,
        },
        in_comment: gap.in_comment,
    }
}

/// Passes over blanks and comments, from byte `from` on, which stands at this place.
pub fn skip_gap(bytes: &[u8], from: usize, place: Place, in_comment: bool) -> Gap
    requires from { from ≤ length bytes.now }
    requires line { place.line + length bytes.now < 2 ^ 32 + from }
    requires column { place.column + length bytes.now < 2 ^ 32 + from }
    ensures { IsGapEnd bytes.now from place in_comment result }
{
    let mut gap = Gap {
        at: from,
        place,
        in_comment,
    };
    'steps: while gap.at < bytes.len() {
        gap = pass_run(bytes, gap);
        if gap.at == bytes.len() {
            break 'steps;
        }
        let byte = bytes[gap.at];
        match gap_step(gap.in_comment, byte) {
            Some(next) => {
                gap = Gap {
                    at: gap.at + 1,
                    place: place_after(byte, gap.place),
                    in_comment: next,
                };
            }
            None => break 'steps,
        }
    }
    gap
}
