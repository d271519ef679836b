//! The lines of a text.
ghost use Rattle.std.specs.Prelude.{◌≡◌, ◌≤◌, length};
ghost use Rattle.text.specs.Bytes.{Longest};
ghost use Rattle.show.specs.Lines.{in_line, LineAt};

use load::Line;

// Where the line from a place on ends: at a line feed, or with the text.
fn line_end(text: &[u8], from: usize) -> usize
    requires { from ≤ length text.now }
    ensures { Longest in_line text.now from result }
{
    // kept: as at `feed_from` of the crate load
    let mut end = from;
    while end < text.len() && text[end] != b'\n' {
        end += 1;
    }
    end
}

/// The line at a place of a text, unless the text ends there. The last line needs no line feed.
pub fn line_at(text: &[u8], at: usize) -> Option<Line<'_>>
    ensures { LineAt text.now at result }
{
    if at >= text.len() {
        return None;
    }
    let end = line_end(text, at);
    Some(Line {
        at,
        text: &text[at..end],
        next: end + 1,
    })
}

// kept: a load file's line must end in a line feed, a call line need not: two rules with a definition each
/// The lines of a text, one after another.
#[derive(Clone, Copy)]
pub struct Lines<'a> {
    text: &'a [u8],
    at: usize,
}

impl<'a> Lines<'a> {
    ghost use Rattle.show.specs.LineSteps.{Begins};

    /// The lines of a text from a place on.
    pub fn new(text: &'a [u8], from: usize) -> Lines<'a>
        ensures { Begins text.now from result }
    {
        Lines { text, at: from }
    }
}

impl<'a> Iterator for Lines<'a> {
    ghost use Rattle.show.specs.LineSteps.{Steps, bytes_left};

    type Item = Line<'a>;

    ghost next_gives = { Steps };

    ghost remaining = { bytes_left };

    fn next(&mut self) -> Option<Line<'a>> {
        let line = line_at(self.text, self.at)?;
        self.at = line.next;
        Some(line)
    }
}
