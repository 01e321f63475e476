// Putting into a table what was not refused.
ghost use Rattle.std.specs.Prelude.{◌≡◌, ◌<◌, ◌≤◌, true, false, [], ◌∷◌, ◌++◌, length, map};
ghost use Rattle.stack.specs.Held.{held};
ghost use Rattle.texts.specs.Held.{bytes_of};
ghost use Rattle.settings.specs.Entries.{full, to_last, too_early, with_aliases, with_entry};
ghost use Rattle.settings.specs.Limits.{value_kept, well_written};
ghost use Rattle.settings.specs.Meant.{tables};
ghost use Rattle.settings.specs.Rows.{value_of};

use crate::kinds::Setting;
use crate::row::{AliasRow, AliasValue};
use crate::settings::Settings;
use stack::ArrayVec;
use texts::Text;

// The room is tested with the other checks, in their order, so these calls ask for it: a push that refuses would be one more answer to each table.
// A text behind the others of its table.
pub(crate) fn push_text<const L: usize, const N: usize>(
    table: &mut ArrayVec<Text<L>, N>,
    text: &[u8],
)
    requires short { length text.now ≤ L }
    requires room { length (map bytes_of (held table.old)) < N }
    ensures text_behind_the_others { map bytes_of (held table.new) ≡ map bytes_of (held table.old) ++ text.now ∷ [] }
{
    table.push(Text::new(text).unwrap()).unwrap();
}

impl Settings {
    // A label without values, behind the others.
    pub(crate) fn push_alias(&mut self, label: &[u8])
        requires well_written { well_written Setting.Alias label.now ≡ true }
        requires room { full Setting.Alias (tables self.old) ≡ false }
        ensures label_behind_the_others { tables self.new ≡ with_entry Setting.Alias label.now (tables self.old) }
    {
        let row = AliasRow::new(Text::new(label).unwrap());
        self.rows[self.count] = row;
        self.count += 1;
    }

    // One value more at the last label, whose row alone changes.
    pub(crate) fn push_value(&mut self, value: AliasValue)
        requires well_written { value_kept (value_of value) ≡ true }
        requires label_before { too_early Setting.Value (tables self.old) ≡ false }
        requires room { full Setting.Value (tables self.old) ≡ false }
        ensures value_at_the_last_label { tables self.new ≡ with_aliases (to_last (value_of value) (tables self.old).aliases) (tables self.old) }
    {
        let last = self.count - 1;
        let rows = &mut self.rows[..];
        rows[last].push(value).unwrap();
    }
}
