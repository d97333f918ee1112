// One setting more on a sheet that is in key order.
ghost use Rattle.std.specs.Prelude.{◌≡◌, ◌+◌, length, if◌then◌else◌, MatchResult};
ghost use Rattle.sovindrate.specs.Sheets.{Stands, meaning, united};

use super::sheet::Setting;
use kinds::{Key, Value};
use std::alloc::AllocError;
use std::cmp::Ordering;

// Where a key stands: `Ok` at the setting that has it, `Err` before the setting that comes after it, or at the end.
fn find<K: Key, V: Value>(settings: &[Setting<K, V>], key: &K) -> Result<usize, usize>
    ensures { Stands K.kind V.kind (K.bytes key.now) (meaning K.bytes V.bytes settings.now) result }
{
    for (i, setting) in settings.iter().enumerate() {
        match setting.key.order(key) {
            Ordering::Less => {}
            Ordering::Equal => return Ok(i),
            Ordering::Greater => return Err(i),
        }
    }
    Err(settings.len())
}

// Unites a setting with a sheet, and says whether its key was there already: the sheet is then no longer than it was.
// Where there is no memory, the sheet is as it was.
pub fn unite<K: Key, V: Value>(
    settings: &mut Vec<Setting<K, V>>,
    key: K,
    value: V,
) -> Result<bool, AllocError>
    ensures { MatchResult result (λ there. (meaning K.bytes V.bytes settings.new.items ≡ united K.kind V.kind (K.bytes key) (V.bytes value) (meaning K.bytes V.bytes settings.old.items)) × (length settings.new.items ≡ length settings.old.items + (if there then 0 else 1))) (λ _. settings.new.items ≡ settings.old.items) }
{
    match find(settings.as_slice(), &key) {
        Ok(i) => {
            let old = settings[i];
            let joined = old.value.join(&value);
            settings[i] = Setting { key, value: joined };
            Ok(true)
        }
        Err(i) => {
            settings.insert(i, Setting { key, value })?;
            Ok(false)
        }
    }
}
