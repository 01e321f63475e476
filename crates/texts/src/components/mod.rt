// The struct stands alone in its file: the definitions in specs/ name it.
ghost use Rattle.std.specs.Prelude.{◌≡◌, true};
ghost use Rattle.texts.specs.Scans.{stands};

mod scan;

/// The parts of a text, one after another.
#[derive(Drop)]
pub struct Components<'a> {
    text: &'a [u8],
    // where the last part ended, or 0
    at: usize,
    ghost between_parts: { stands text.now at ≡ true },
}
