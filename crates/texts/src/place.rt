// Where some bytes of a text stand.
ghost use Rattle.std.specs.Prelude.{◌≡◌};
ghost use Rattle.texts.specs.Parts.{text_at};

/// Some bytes of a text, by where the first of them stands and how many they are.
#[derive(Clone, Copy, PartialEq, Eq, Debug)]
pub struct Place {
    pub start: usize,
    pub len: usize,
}

impl Place {
    /// What stands at this place of `text`; what would lie beyond the text's end is left out.
    pub fn of<'a>(self, text: &'a [u8]) -> &'a [u8]
        ensures part_of_the_text { result.now ≡ text_at text.now self }
    {
        let start = self.start.min(text.len());
        let len = self.len.min(text.len() - start);
        let end = start + len;
        &text[start..end]
    }
}
