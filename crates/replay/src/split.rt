// Taking lines off the front of a text.
ghost use Rattle.std.specs.Prelude.{◌≡◌, ◌++◌, IfSome, option_map};
ghost use Rattle.replay.specs.Lists.{IsEnd, behind_lines, halves_of};

use lines::first_line;

// What stands behind the first `count` lines, if there are so many.
fn behind_lines(text: &[u8], count: u16) -> Option<&[u8]>
    ensures behind_so_many_line_ends { option_map (λ rest. rest.now) result ≡ behind_lines count text.now }
    ensures end_of_the_text { IfSome result (λ rest. IsEnd rest.now text.now) }
{
    let mut left = text;
    for _taken in 0..count {
        let (line, rest) = first_line(left);
        if line.len() == left.len() {
            return None;
        }
        left = rest;
    }
    Some(left)
}

/// The first `count` lines with their line ends, and what stands behind them, if there are so many.
#[tactic(auto, unfolding(crate::specs::Lists::halves_of))]
pub fn split_lines(text: &[u8], count: u16) -> Option<(&[u8], &[u8])>
    ensures lines_and_rest { option_map (λ h. record { lines = h.0.now; rest = h.1.now }) result ≡ halves_of count text.now }
    ensures nothing_is_lost { IfSome result (λ h. h.0.now ++ h.1.now ≡ text.now) }
{
    let rest = behind_lines(text, count)?;
    Some((&text[..text.len() - rest.len()], rest))
}
