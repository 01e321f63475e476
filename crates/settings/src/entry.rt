// What a line says of the settings.
ghost use Rattle.std.specs.Prelude.{◌≡◌};
ghost use Rattle.std.specs.Result.{result_map_both};
ghost use Rattle.settings.specs.Loading.{known, offer_of, offered};

use crate::flag::Flag;
use crate::kinds::{FLAG, Setting};
use crate::refusals::Refusal;
use lines::{HEAD_LEN, Head, Line};

/// What a line says of the settings: a setting with its two texts, or a flag with its setting.
#[derive(Clone, Copy)]
pub enum Entry<'a> {
    Texts(Setting, &'a [u8], &'a [u8]),
    Flag(Flag),
}

impl<'a> Entry<'a> {
    // The entry in a line; a line with other columns or of another kind is refused, and so is a flag that there is not.
    #[tactic(auto, unfolding(crate::specs::Loading::offer_of))]
    pub(crate) fn read(line: &'a [u8]) -> Result<Entry<'a>, Refusal>
        ensures entry_in_the_line { result_map_both offered (λ e. e) result ≡ known (offer_of line.now) }
    {
        let head = Head::read(line)?;
        if head.kind == FLAG {
            // a line that sets a flag has no texts
            if line.len() != HEAD_LEN {
                return Err(Refusal::Kind);
            }
            let flag = Flag::try_from((head.first, head.second))?;
            return Ok(Entry::Flag(flag));
        }
        let kind = Setting::try_from(head.kind)?;
        let texts = Line::read(line)?;
        Ok(Entry::Texts(kind, texts.first, texts.second))
    }
}
