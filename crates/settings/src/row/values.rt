// A row of the alias table: made, given a value more, and read.
ghost use Rattle.std.specs.Prelude.{◌≡◌, ◌≤◌, [], map, length, is_ok, if◌then◌else◌, nat_lt};
ghost use Rattle.texts.specs.Held.{bytes_of};
ghost use Rattle.settings.specs.Rows.{alias_of, value_of};
ghost use Rattle.settings.specs.Tables.{labelled, with_value};

use crate::limits::MAX_LABEL;
use crate::row::{AliasRow, AliasValue};
use stack::{ArrayVec, Full};
use texts::Text;

impl AliasRow {
    // A label without values.
    pub(crate) fn new(label: Text<MAX_LABEL>) -> AliasRow
        ensures label_without_values { alias_of result ≡ labelled (bytes_of label) [] }
    {
        AliasRow {
            label,
            values: ArrayVec::new(AliasValue::Ignore),
        }
    }

    // One value more, behind the others; a fifth is refused and changes nothing.
    pub(crate) fn push(&mut self, value: AliasValue) -> Result<(), Full>
        ensures room_for_four { is_ok result ≡ nat_lt (length (alias_of self.old).values) 4 }
        ensures value_behind_the_others { alias_of self.new ≡ (if is_ok result then with_value (value_of value) (alias_of self.old) else alias_of self.old) }
    {
        self.values.push(value)
    }

    /// The label, as it was written.
    pub fn label(&self) -> &[u8]
        ensures label_as_written { result.now ≡ (alias_of self.now).label }
    {
        self.label.as_bytes()
    }

    /// The values, in the order written.
    pub fn values(&self) -> &[AliasValue]
        ensures values_in_the_order_written { map value_of result.now ≡ (alias_of self.now).values }
        ensures at_most_four { length result.now ≤ 4 }
    {
        self.values.as_slice()
    }
}
