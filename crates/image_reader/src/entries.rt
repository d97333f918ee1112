// Entries: one, and those of a node, one for each bit of its data map.
ghost use Rattle.std.specs.Prelude.{◌≡◌, ◌<◌, ◌^◌, ◌/◌, ◌%◌, ◌==◌, ◌&&◌};
ghost use Rattle.model.specs.Tries.{leads};
ghost use Rattle.model.specs.Reading.{digits_in, each};
ghost use Rattle.image_reader.specs.Dues.{EntryIsDue};
ghost use Rattle.image_reader.specs.Prefixes.{prefix_digits};
ghost use Rattle.image_reader.specs.Readings.{ReadingOutcome};
ghost use Rattle.image_reader.specs.Entries.{follows, entry_after, entry_at, EntryOutcome};

use super::due::Due;
use super::operands::read_setting;
use super::prefix::Prefix;
use super::reader::Reader;
use kinds::{Key, Refusal, Value};

// Whether a digit's bit is set.
pub(crate) fn has_digit(map: u16, digit: u8) -> bool
    requires { digit < 16 }
    ensures { result ≡ ((map / 2 ^ digit) % 2 == 1) }
{
    (map >> digit) & 1 == 1
}

// Whether a key's hash begins with the digits of a prefix, and the key comes after the last one,
// if there is one.
fn has_place<K: Key>(prefix: Prefix, last: Option<K>, key: &K) -> bool
    ensures { let k = K.bytes key.now in
        result ≡ (leads K.kind 0 (prefix_digits prefix) k && follows K.kind K.bytes last k) }
{
    prefix.leads(key)
        && match last {
            None => true,
            Some(before) => before.order(key).is_lt(),
        }
}

impl Reader<'_> {
    // An entry, which is due. Its key has to have its place at a prefix, and after the last key, if
    // there is one.
    pub(crate) fn entry<K: Key, V: Value>(
        &mut self,
        due: Due,
        prefix: Prefix,
        last: Option<K>,
    ) -> Result<K, Refusal>
        requires { EntryIsDue due }
        ensures { let reading = entry_after K.kind V.kind K.bytes (prefix_digits prefix) last in
            EntryOutcome K.bytes reading self.old self.new result }
    {
        let command = self.command::<K, V>(due)?;
        let Some((key, _)) = read_setting::<K, V>(command.operands) else {
            return Err(command.broken());
        };
        if !has_place(prefix, last, &key) {
            return Err(command.broken());
        }
        Ok(key)
    }

    // The entries of a node, after which so many children are due. How many they are.
    pub(crate) fn entries<K: Key, V: Value>(
        &mut self,
        prefix: Prefix,
        datamap: u16,
        children: u32,
    ) -> Result<usize, Refusal>
        requires { 0 < prefix.height }
        ensures { let entry = entry_at K.kind V.kind (prefix_digits prefix) in
            ReadingOutcome (each entry (digits_in datamap)) self.old self.new result }
    {
        let height = prefix.height;
        let mut entries = datamap.count_ones();
        for digit in 0..16 {
            if has_digit(datamap, digit) {
                let due = Due::InNode {
                    height,
                    entries,
                    children,
                };
                self.entry::<K, V>(due, prefix.child(digit), None)?;
                entries -= 1;
            }
        }
        Ok(datamap.count_ones() as usize)
    }
}
