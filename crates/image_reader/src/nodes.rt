// Nodes: their maps, or a collision node's count, and all that is below them.
ghost use Rattle.std.specs.Prelude.{◌≡◌, ◌-◌, ◌==◌, ◌&&◌, bit_and, nat_le, length};
ghost use Rattle.byte_rows.specs.Rows.{number};
ghost use Rattle.model.specs.Reading.{digits_in, enough, read_crowd};
ghost use Rattle.image_reader.specs.Dues.{node_width};
ghost use Rattle.image_reader.specs.Nodes.{below};
ghost use Rattle.image_reader.specs.Prefixes.{prefix_digits};
ghost use Rattle.image_reader.specs.Readings.{ReadingOutcome};

use super::due::Due;
use super::entries::has_digit;
use super::operands::read_maps;
use super::prefix::{Prefix, ROOT_HEIGHT};
use super::reader::{Command, Reader};
use kinds::{Key, Refusal, Value};
use model::MOST_OF_A_HASH;

// Whether a node has enough: the root any entry or child, and another node a child or two entries.
fn has_enough(height: u8, datamap: u16, nodemap: u16) -> bool
    ensures { result ≡ enough (height - 1) (digits_in datamap) (digits_in nodemap) }
{
    let (entries, children) = (datamap.count_ones(), nodemap.count_ones());
    if height == ROOT_HEIGHT {
        entries + children > 0
    } else {
        children > 0 || entries > 1
    }
}

// Whether the two maps of a node share no bit, and have bits enough.
fn are_maps(height: u8, datamap: u16, nodemap: u16) -> bool
    ensures { let enough = enough (height - 1) (digits_in datamap) (digits_in nodemap) in
        result ≡ (bit_and datamap nodemap == 0 && enough) }
{
    datamap & nodemap == 0 && has_enough(height, datamap, nodemap)
}

// Whether a collision node may have so many entries.
fn may_collide(entries: u8) -> bool
    ensures { result ≡ (nat_le 2 entries && nat_le entries MOST_OF_A_HASH) }
{
    (2..=MOST_OF_A_HASH).contains(&usize::from(entries))
}

impl Reader<'_> {
    // The entries of a collision node, and how many there are.
    fn collision<K: Key, V: Value>(
        &mut self,
        command: Command,
        prefix: Prefix,
    ) -> Result<usize, Refusal>
        requires { length command.operands.now ≡ 1 }
        ensures { let c = command.entry in
            let p = prefix_digits prefix in
            let reading = read_crowd K.kind V.kind p c.at (number c.operands.now) in
            ReadingOutcome reading self.old self.new result }
    {
        let many = command.operands[0];
        if !may_collide(many) {
            return Err(command.broken());
        }
        let mut last = None;
        for read in 0..many {
            let due = Due::InCollision {
                entries: many - read,
            };
            last = Some(self.entry::<K, V>(due, prefix, last)?);
        }
        Ok(usize::from(many))
    }

    // All below the command of a node, its entries and then its children, and how many entries
    // there are in all.
    pub(crate) fn node<K: Key, V: Value>(
        &mut self,
        command: Command,
        prefix: Prefix,
    ) -> Result<usize, Refusal>
        requires { length command.operands.now ≡ node_width prefix.height }
        ensures { let c = command.entry in
            let p = prefix_digits prefix in
            let reading = below K.kind V.kind prefix.height p c.at c.operands.now in
            ReadingOutcome reading self.old self.new result }
    {
        let height = prefix.height;
        if height == 0 {
            return self.collision::<K, V>(command, prefix);
        }
        let (datamap, nodemap) = read_maps(command.operands);
        if !are_maps(height, datamap, nodemap) {
            return Err(command.broken());
        }
        let mut children = nodemap.count_ones();
        let mut count = self.entries::<K, V>(prefix, datamap, children)?;
        for digit in 0..16 {
            if has_digit(nodemap, digit) {
                let due = Due::InNode {
                    height,
                    entries: 0,
                    children,
                };
                let command = self.command::<K, V>(due)?;
                count += self.node::<K, V>(command, prefix.child(digit))?;
                children -= 1;
            }
        }
        Ok(count)
    }
}
