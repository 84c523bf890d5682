// The first line of a log: its field and the code's parameters.
ghost use Rattle.std.specs.Prelude.{◌≡◌, Some};
ghost use Rattle.subspace_code.specs.Encoding.{fits};
ghost use Rattle.portal_log.specs.Heads.{head_of, head_text};

use crate::digits::small_decimal;
use crate::name::FieldName;
use crate::text::four_parts;
use std::fmt;

#[derive(Clone, Copy)]
pub struct Head {
    pub name: FieldName,
    pub l: usize,
    pub k: usize,
}

impl Head {
    // What a first line says; absent where it is not of its shape.
    pub fn read(line: &[u8]) -> Option<Head>
        ensures { result ≡ head_of line.now }
    {
        let (b"L", name, l, k) = four_parts(line)? else {
            return None;
        };
        Some(Head {
            name: FieldName::read(name)?,
            l: usize::from(small_decimal(l)?),
            k: usize::from(small_decimal(k)?),
        })
    }

    // 1 ≤ k ≤ ℓ ≤ m
    pub fn fits(self, m: usize) -> bool
        ensures { result ≡ fits self.k self.l m }
    {
        1 <= self.k && self.k <= self.l && self.l <= m
    }
}

// Prints the line, without its LF.
impl fmt::Display for Head {
    ghost output = { λ head. Some (head_text head) };

    fn fmt<W: fmt::Write>(&self, f: &mut fmt::Formatter<W>) -> fmt::Result {
        let Head { name, l, k } = *self;
        write!(f, "L,{name},{l},{k}")
    }
}
