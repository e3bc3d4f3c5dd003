// The lines of an input, one after another, with nothing copied. The byte 0A ends a line, and so does the end of the
// input behind other bytes.
ghost use Rattle.std.specs.Prelude.{◌≡◌};
ghost use Rattle.std.specs.Iterator.{item_count};
ghost use Rattle.commands.specs.Lines.{Whole, lines_of, to_come, Took};

use crate::find::place_of;

const LINE_END: u8 = b'\n';

// The bytes of an input of which no line was taken yet.
#[derive(Drop)]
pub struct Lines<'a> {
    rest: &'a [u8],
}

impl<'a> Lines<'a> {
    // All lines of the input are still to come.
    pub fn new(input: &'a [u8]) -> Lines<'a>
        ensures { to_come result ≡ input.now }
    {
        Lines { rest: input }
    }
}

impl<'a> Iterator for Lines<'a> {
    type Item = &'a [u8];

    ghost next_gives = { λ s line t. Took (to_come s) line (to_come t) };

    ghost remaining = { item_count (λ s. lines_of (to_come s)) };

    // The next line, without its end.
    fn next(&mut self) -> Option<&'a [u8]> {
        if self.rest.is_empty() {
            return None;
        }
        let (line, behind) = self.rest.split_at(place_of(LINE_END, self.rest));
        self.rest = match behind {
            [_, rest @ ..] => rest,
            [] => behind,
        };
        Some(line)
    }
}

// How many bytes at the front are whole lines: those up to the last line end. The lines of the input are those of
// this front, and then those of the bytes behind it.
pub fn whole_lines(input: &[u8]) -> usize
    ensures { Whole input.now result }
{
    input
        .iter()
        .rposition(|byte| *byte == LINE_END)
        .map_or(0, |end| end + 1)
}
