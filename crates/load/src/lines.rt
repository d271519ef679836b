//! The lines of a load file.
ghost use Rattle.std.specs.Prelude.{◌≡◌, ◌≤◌, length, drop};
ghost use Rattle.text.specs.Bytes.{Longest};
ghost use Rattle.load.specs.Files.{no_feed, NextLine, Counts, LinesTold, lines_at};
ghost use Rattle.load.specs.LinesLeft.{lines_left};

/// A line of a load file.
#[derive(Clone, Copy, Debug, PartialEq, Eq)]
pub struct Line<'a> {
    /// The place of its first byte.
    pub at: usize,
    /// Its bytes, without the line feed that ends it.
    pub text: &'a [u8],
    /// Where the next line begins.
    pub next: usize,
}

// The place of the first line feed from a place on, or the length where there is none.
fn feed_from(body: &[u8], at: usize) -> usize
    requires { at ≤ length body.now }
    ensures { Longest no_feed body.now at result }
{
    // kept: a look back put this loop back in place of `run_end` of `text`, as docs/LOOK-BACK.md tells
    let mut end = at;
    while end < body.len() && body[end] != b'\n' {
        end += 1;
    }
    end
}

/// The line of a file's body at a place, if a line feed follows there.
pub fn next_line(body: &[u8], at: usize) -> Option<Line<'_>>
    ensures { NextLine body.now at result }
{
    if at >= body.len() {
        return None;
    }
    let end = feed_from(body, at);
    if end >= body.len() {
        return None;
    }
    Some(Line {
        at,
        text: &body[at..end],
        next: end + 1,
    })
}

/// The lines of a file's body, one after another.
#[derive(Clone, Copy)]
pub struct Lines<'a> {
    body: &'a [u8],
    at: usize,
}

impl<'a> Lines<'a> {
    /// The lines of a file's body from a place on.
    pub fn new(body: &'a [u8], from: usize) -> Lines<'a>
        ensures { lines_left result ≡ lines_at from (drop from body.now) }
    {
        Lines { body, at: from }
    }
}

impl<'a> Iterator for Lines<'a> {
    ghost use Rattle.std.specs.Iterator.{YieldsFirstBy, item_count};
    ghost use Rattle.load.specs.LinesLeft.{placed};

    type Item = Line<'a>;

    ghost next_gives = { YieldsFirstBy placed lines_left };

    ghost remaining = { item_count lines_left };

    fn next(&mut self) -> Option<Line<'a>> {
        let line = next_line(self.body, self.at)?;
        self.at = line.next;
        Some(line)
    }
}

/// How many lines there are from a place of a file's body on, where these are all of its bytes there.
pub fn count_lines(body: &[u8], from: usize) -> Option<usize>
    ensures { Counts body.now from result }
{
    if from < body.len() && !body.ends_with(b"\n") {
        return None;
    }
    Some(Lines::new(body, from).count())
}

/// The lines of a text are the one way to take it apart at its line feeds.
pub fn lines_told()
    ensures { LinesTold }
{}
