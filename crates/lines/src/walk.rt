// All lines of a text.
ghost use Rattle.lines.specs.Lines.{lines_left, lines_of};
ghost use Rattle.std.specs.Iterator.{YieldsFirstBy, item_count};
ghost use Rattle.std.specs.Option.{option_map};
ghost use Rattle.std.specs.Prelude.{◌≡◌};

use crate::cut::cut_line;

// A line, and whether a line feed ends it: none ends what follows the last line feed.
#[derive(Clone, Copy, PartialEq, Eq, Debug)]
pub struct Line<'a> {
    pub text: &'a [u8],
    pub ended: bool,
}

// The lines of what is left of a text, in their order.
#[derive(Clone, Copy)]
pub struct Lines<'a> {
    rest: Option<&'a [u8]>,
}

impl<'a> Lines<'a> {
    pub fn of(text: &'a [u8]) -> Lines<'a>
        ensures { lines_left (option_map (λ x. x.now) result.rest) ≡ lines_of text.now }
    {
        Lines { rest: Some(text) }
    }
}

impl<'a> Iterator for Lines<'a> {
    type Item = Line<'a>;

    ghost next_gives = { YieldsFirstBy (λ l. (l.text.now, l.ended)) (λ s. lines_left (option_map (λ x. x.now) s.rest)) };

    ghost remaining = { item_count (λ s. lines_left (option_map (λ x. x.now) s.rest)) };

    #[tactic(auto, using(crate::proofs::Cuts::lines_more))]
    fn next(&mut self) -> Option<Line<'a>> {
        let (text, rest) = cut_line(self.rest?);
        self.rest = rest;
        let ended = rest.is_some();
        Some(Line { text, ended })
    }
}
