// A whole image, judged.
ghost use Rattle.std.specs.Prelude.{◌≡◌, [], length};
ghost use Rattle.model.specs.Images.{header};
ghost use Rattle.model.specs.Reading.{got, end_in};
ghost use Rattle.image_reader.specs.Judging.{whole, rooted, JudgedAs};
ghost use Rattle.image_reader.specs.Readings.{StepOutcome};

use super::due::Due;
use super::operands::read_count;
use super::prefix::Prefix;
use super::reader::{Command, Reader};
use kinds::{Key, Refusal, Value};
use model::{EDITION, END};

// The operands of a header of this edition and of these kinds.
fn own_header<K: Key, V: Value>() -> [u8; 3]
    ensures { result ≡ header K.kind V.kind }
{
    [EDITION, K::CODE, V::CODE]
}

impl Reader<'_> {
    // The header, which has to name this edition and these kinds.
    fn header<K: Key, V: Value>(&mut self) -> Result<(), Refusal>
        requires { self.old.at ≡ 0 }
        ensures { let next = rooted K.kind V.kind in
            StepOutcome (whole K.kind V.kind) next self.old self.new result }
    {
        let command = self.command::<K, V>(Due::Header)?;
        if !byte_rows::same_rows(command.operands, &own_header::<K, V>()) {
            return Err(Refusal::Foreign { at: command.at });
        }
        Ok(())
    }

    // The end, which has to have the number of entries, and nothing after it.
    fn end(&self, command: Command, count: usize) -> Result<(), Refusal>
        requires { length command.operands.now ≡ 4 }
        ensures { let c = command.entry in
            StepOutcome (end_in count c.at c.operands.now) (got []) self.now self.now result }
    {
        if read_count(command.operands) as usize != count {
            return Err(command.broken());
        }
        if !self.is_at_end() {
            return Err(Refusal::Broken { at: self.offset() });
        }
        Ok(())
    }
}

/// Judges a whole image of the kinds `K` and `V`: accepted where it is the image of some map.
///
/// Refused as 7 (foreign), 8 (cut) or 9 (broken), with the offset of its first faulty command.
pub fn judge<K: Key, V: Value>(image: &[u8]) -> Result<(), Refusal>
    ensures { JudgedAs K.kind V.kind image.now result }
{
    let mut reader = Reader::new(image);
    reader.header::<K, V>()?;
    let command = reader.command::<K, V>(Due::RootOrEnd)?;
    if command.byte == END {
        return reader.end(command, 0);
    }
    let count = reader.node::<K, V>(command, Prefix::root())?;
    let end = reader.command::<K, V>(Due::End)?;
    reader.end(end, count)
}
