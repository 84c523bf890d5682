// Reads a log in a field: its first line, and the lines after it one by one.
ghost use Rattle.std.specs.Prelude.{◌≡◌, length, drop};
ghost use Rattle.field.specs.Alphabet.{alphabet};
ghost use Rattle.portal_log.specs.Text.{lines};
ghost use Rattle.portal_log.specs.Places.{placed};
ghost use Rattle.portal_log.specs.Heads.{first_head};
ghost use Rattle.portal_log.specs.Views.{left_lines, placed_lines};
ghost use Rattle.portal_log.specs.Readers.{left_entries, GivesEntry};
ghost use Rattle.std.specs.Iterator.{item_count};

use crate::head::Head;
use crate::line::{Line, read_line};
use crate::name::LogField;
use crate::text::Lines;
use field::{FiniteField, SymbolField};
use std::marker::PhantomData;

// What the first line of a text says, and the lines after it.
pub fn open(text: &[u8]) -> (Option<Head>, Lines<'_>)
    ensures head { result.0 ≡ first_head (lines text.now) }
    ensures lines { left_lines result.1 ≡ drop 1 (lines text.now) }
    ensures places { placed_lines result.1 ≡ drop 1 (placed 0 (lines text.now)) }
    ensures text { result.1.text.now ≡ text.now }
{
    let mut lines = Lines::of(text);
    let head = lines.next().and_then(|line| Head::read(line.text));
    (head, lines)
}

// Lines of a log in the field F, one by one.
#[derive(Clone, Copy)]
pub struct Reader<'a, F> {
    lines: Lines<'a>,
    field: PhantomData<F>,
}

impl<'a, F: LogField> Reader<'a, F> {
    // Reads the lines that are left.
    pub fn of(lines: Lines<'a>) -> Reader<'a, F>
        ensures { result.lines ≡ lines.entry }
    {
        let field = PhantomData;
        Reader { lines, field }
    }

    // How many bytes the whole log has.
    pub fn size(&self) -> usize
        ensures { result ≡ length self.now.lines.text.now }
    {
        self.lines.text.len()
    }
}

impl<'a, F: LogField> Iterator for Reader<'a, F> {
    type Item = Line<'a>;

    ghost next_gives = { GivesEntry (alphabet F.Scalar.FiniteField F.SymbolField) F.LogField.FIELD_NAME };

    ghost remaining = { item_count (λ s. left_lines s.lines) };

    fn next(&mut self) -> Option<Line<'a>> {
        let line = self.lines.next()?;
        Some(read_line::<F>(line))
    }
}
