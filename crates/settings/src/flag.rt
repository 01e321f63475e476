// The flags of the settings, and the numbers that an office gives them.
ghost use Rattle.std.specs.Prelude.{◌≡◌, false, MatchResult};
ghost use Rattle.settings.specs.declared.refusals.Refusal.TheVariants.{Form};
ghost use Rattle.settings.specs.Entries.{flag_known};
ghost use Rattle.settings.specs.Flags.{numbers_of};

use crate::enforcement::EnforceExtension;
use crate::refusals::Refusal;

/// A flag and what it is set to.
#[derive(Clone, Copy)]
pub enum Flag {
    FullySpecified(bool),
    ResolveToContext(bool),
    EnforceExtension(EnforceExtension),
}

impl TryFrom<(u16, u16)> for Flag {
    type Error = Refusal;

    ghost try_from_gives = { λ n r. MatchResult r (λ f. numbers_of f ≡ n) (λ e. (e ≡ Form) × (flag_known n.0 n.1 ≡ false)) };

    // The flag of this number with its setting: 1 is on, 0 off, and for the third 2 auto.
    fn try_from(numbers: (u16, u16)) -> Result<Flag, Refusal>
        ensures flag_of_these_numbers_or_none_has_them { MatchResult result (λ f. numbers_of f ≡ numbers) (λ e. (e ≡ Form) × (flag_known numbers.0 numbers.1 ≡ false)) }
    {
        match numbers {
            (1, 0) => Ok(Flag::FullySpecified(false)),
            (1, 1) => Ok(Flag::FullySpecified(true)),
            (2, 0) => Ok(Flag::ResolveToContext(false)),
            (2, 1) => Ok(Flag::ResolveToContext(true)),
            (3, 0) => Ok(Flag::EnforceExtension(EnforceExtension::Disabled)),
            (3, 1) => Ok(Flag::EnforceExtension(EnforceExtension::Enabled)),
            (3, 2) => Ok(Flag::EnforceExtension(EnforceExtension::Auto)),
            _ => Err(Refusal::Form),
        }
    }
}
