// Lines of a text, and the parts of a line between commas.
ghost use Rattle.std.specs.Prelude.{◌≡◌, ◌≤◌, length};
ghost use Rattle.std.specs.Option.{option_map};
ghost use Rattle.std.specs.Iterator.{YieldsFirstRef, item_count};
ghost use Rattle.portal_log.specs.Text.{before, lines, parts, four};
ghost use Rattle.portal_log.specs.Views.{left_lines, left_parts, texts, GivesLine};

// How many bytes stand before the first `stop`; all of them where there is none.
fn before(bytes: &[u8], stop: u8) -> usize
    ensures value { result ≡ before stop bytes.now }
    ensures within { result ≤ length bytes.now }
{
    bytes.iter().position(|b| *b == stop).unwrap_or(bytes.len())
}

// A part of a text: what it says, and how many bytes stand before it.
#[derive(Clone, Copy)]
pub struct Part<'a> {
    pub text: &'a [u8],
    pub place: usize,
}

// The lines of a text, one by one; `place` is where the next one begins.
#[derive(Clone, Copy)]
pub struct Lines<'a> {
    pub(crate) text: &'a [u8],
    place: usize,
}

impl<'a> Lines<'a> {
    pub fn of(text: &'a [u8]) -> Lines<'a>
        ensures lines { left_lines result ≡ lines text.now }
        ensures start { result.place ≡ 0 }
        ensures text { result.text.now ≡ text.now }
    {
        Lines { text, place: 0 }
    }
}

impl<'a> Iterator for Lines<'a> {
    type Item = Part<'a>;

    ghost next_gives = { GivesLine };

    ghost remaining = { item_count left_lines };

    fn next(&mut self) -> Option<Part<'a>> {
        let place = self.place;
        if place >= self.text.len() {
            return None;
        }
        let rest = &self.text[place..];
        let (text, end) = rest.split_at(before(rest, b'\n'));
        // `end` begins with the LF, where there is one
        self.place += text.len() + end.len().min(1);
        Some(Part { text, place })
    }
}

// The parts of a line, one by one.
#[derive(Drop)]
pub struct Parts<'a> {
    rest: Option<&'a [u8]>,
}

impl<'a> Parts<'a> {
    pub fn of(line: &'a [u8]) -> Parts<'a>
        ensures { left_parts result ≡ parts line.now }
    {
        Parts { rest: Some(line) }
    }
}

impl<'a> Iterator for Parts<'a> {
    type Item = &'a [u8];

    ghost next_gives = { YieldsFirstRef left_parts };

    ghost remaining = { item_count left_parts };

    fn next(&mut self) -> Option<&'a [u8]> {
        let rest = self.rest?;
        let (part, end) = rest.split_at(before(rest, b','));
        self.rest = end.get(1..);
        Some(part)
    }
}

// The parts of a line that has four.
pub(crate) fn four_parts(line: &[u8]) -> Option<(&[u8], &[u8], &[u8], &[u8])>
    ensures { option_map texts result ≡ four (parts line.now) }
{
    let mut parts = Parts::of(line);
    let four = (parts.next()?, parts.next()?, parts.next()?, parts.next()?);
    parts.next().is_none().then_some(four)
}
