// Where a line ends.
ghost use Rattle.lines.specs.Lines.{line_of, rest_of};
ghost use Rattle.std.specs.Option.{option_map};
ghost use Rattle.std.specs.Prelude.{◌≡◌, ◌==◌, position};

const LINE_FEED: u8 = b'\n';

// The place of the first line feed.
fn first_feed(input: &[u8]) -> Option<usize>
    ensures { result ≡ position (λ b. b == LINE_FEED) input.now }
{
    input.iter().position(|byte| *byte == LINE_FEED)
}

// The bytes before the first line feed, and those after it; none where there is no line feed, and then the line is all that is left.
#[tactic(auto, using(crate::proofs::Cuts::cuts))]
pub fn cut_line(input: &[u8]) -> (&[u8], Option<&[u8]>)
    ensures line { result.0.now ≡ line_of input.now }
    ensures rest { option_map (λ x. x.now) result.1 ≡ rest_of input.now }
{
    match first_feed(input) {
        Some(end) => (&input[..end], Some(&input[end + 1..])),
        None => (input, None),
    }
}
