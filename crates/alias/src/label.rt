// The forms of labels, and which requests a label touches.
ghost use Rattle.std.specs.Prelude.{◌≡◌, true, false, MatchOption};
ghost use Rattle.texts.specs.Texts.{has};
ghost use Rattle.alias.specs.Forms.{STAR, before_star, begins_otherwise, behind_star, first_byte_fits, form, form_touches, goes_on, key as key_of, touches};
ghost use Rattle.alias.specs.Labels.{formed};
ghost use Rattle.alias.specs.Laws.{ExactTouchesItself, PlainTouchesWhatItContinues};

use texts::ends_in;

/// The form of a label, with the texts that a request is compared with.
#[derive(Clone, Copy)]
pub enum AliasMatchKind<'a> {
    /// A final `$` stands behind the key.
    Exact(&'a [u8]),
    /// The first `*` stands between the prefix and the suffix.
    Wildcard { prefix: &'a [u8], suffix: &'a [u8] },
    /// Neither: the label itself.
    Prefix(&'a [u8]),
}

// Whether a text goes on as a path does, with a slash or a backslash.
fn goes_on(text: &[u8]) -> bool
    ensures slash_or_backslash_first { result ≡ goes_on text.now }
{
    matches!(text, [b'/' | b'\\', ..])
}

/// The label without its final `$`.
#[tactic(auto, using(texts::proofs::ByteLoops::ends_at))]
pub fn key(label: &[u8]) -> &[u8]
    ensures label_without_its_dollar { result.now ≡ key_of label.now }
{
    match label {
        [key @ .., b'$'] => key,
        _ => label,
    }
}

// What stands before the first `*` of a text, and what stands behind it; none without a `*`.
pub(crate) fn split_star(text: &[u8]) -> Option<(&[u8], &[u8])>
    ensures around_the_first_star { MatchOption result (has STAR text.now ≡ false) (λ x. (has STAR text.now ≡ true) × (x.0.now ≡ before_star text.now) × (x.1.now ≡ behind_star text.now)) }
{
    let star = text.iter().position(|byte| *byte == b'*')?;
    Some((&text[..star], &text[star + 1..]))
}

impl<'a> AliasMatchKind<'a> {
    /// The form of a label.
    #[tactic(auto, unfolding(crate::specs::Forms::form))]
    pub fn of(label: &'a [u8]) -> AliasMatchKind<'a>
        ensures form_of_the_label { formed result ≡ form label.now }
    {
        if ends_in(label, b'$') {
            return AliasMatchKind::Exact(key(label));
        }
        match split_star(label) {
            Some((prefix, suffix)) => AliasMatchKind::Wildcard { prefix, suffix },
            None => AliasMatchKind::Prefix(label),
        }
    }

    // Whether a label of this form touches a request.
    fn touches(self, request: &[u8]) -> bool
        ensures touched_by_its_form { result ≡ form_touches (formed self.entry) request.now }
    {
        match self {
            AliasMatchKind::Exact(key) => key == request,
            AliasMatchKind::Wildcard { prefix, .. } => begins_alike(prefix, request),
            AliasMatchKind::Prefix(label) => match request.strip_prefix(label) {
                Some(tail) => tail.is_empty() || goes_on(tail),
                None => false,
            },
        }
    }
}

// Whether a request has a prefix's first byte, if the prefix has one.
fn begins_alike(prefix: &[u8], request: &[u8]) -> bool
    ensures first_byte_of_the_prefix { result ≡ first_byte_fits prefix.now request.now }
{
    prefix.is_empty() || prefix.first() == request.first()
}

// Most labels are told apart from a request by one byte, before their form is known.
// Whether the first bytes alone show that a label does not touch a request.
fn begins_otherwise(label: &[u8], request: &[u8]) -> bool
    ensures other_first_byte { result ≡ begins_otherwise label.now request.now }
{
    match label {
        [first, ..] => *first != b'*' && *first != b'$' && !begins_alike(label, request),
        [] => false,
    }
}

/// Whether a label touches a request.
#[tactic(auto, using(crate::proofs::Touching::plain_touches, crate::proofs::Touching::exact_touches, crate::proofs::Touching::told_apart), unfolding(crate::specs::Forms::touches))]
pub fn key_matches(label: &[u8], request: &[u8]) -> bool
    ensures touched_by_its_form { result ≡ touches label.now request.now }
    ensures plain_label_touches_itself_and_what_continues_it { PlainTouchesWhatItContinues label.now request.now }
    ensures exact_label_touches_nothing_but_itself { ExactTouchesItself label.now request.now }
{
    !begins_otherwise(label, request) && AliasMatchKind::of(label).touches(request)
}
