// A reader of a lent image, and the command that comes next.
ghost use Rattle.std.specs.Prelude.{◌≡◌, ◌==◌, ◌+◌, ◌<◌, ◌≤◌, length, slice_index, slice_range};
ghost use Rattle.image_reader.specs.Cursors.{unread};
ghost use Rattle.image_reader.specs.Commands.{CommandOutcome};

use super::due::{Due, due_width};
use kinds::{Key, Refusal, Value};
use std::marker::Model;

/// Reads a lent image, command after command, and copies none of its bytes.
#[derive(Drop)]
pub struct Reader<'a> {
    image: &'a [u8],
    // the offset of the next command
    at: usize,
}

impl<'a> Model for Reader<'a> {
    ghost use Rattle.std.specs.Prelude.{◌≤◌, length};
    ghost use Rattle.image_reader.specs.Cursors.{Cursor};

    ghost Value = { Cursor };

    ghost view = { λ r. record { image = r.image.now; at = r.at } };

    ghost invariant = { λ r. r.at ≤ length r.image.now };
}

// A command that was due, with its offset and its operands.
#[derive(Clone, Copy)]
pub(crate) struct Command<'a> {
    pub(crate) at: usize,
    pub(crate) byte: u8,
    pub(crate) operands: &'a [u8],
}

impl Command<'_> {
    // Its operands are against a rule.
    pub(crate) fn broken(&self) -> Refusal
        ensures { result ≡ Refusal.Broken self.now.at }
    {
        Refusal::Broken { at: self.at }
    }
}

impl<'a> Reader<'a> {
    /// A reader at the beginning of an image.
    pub fn new(image: &'a [u8]) -> Self
        ensures start { result.at ≡ 0 }
        ensures image { result.image ≡ image.now }
    {
        Reader { image, at: 0 }
    }

    /// The byte of the next command, which is there. It is not read yet.
    pub fn next_byte(&self) -> u8
        requires { self.now.at < length self.now.image }
        ensures { result ≡ slice_index self.now.image self.now.at }
    {
        self.image[self.at]
    }

    /// Reads the next command, which is there with `width` bytes of operands, and answers these.
    pub fn take(&mut self, width: usize) -> &'a [u8]
        requires { self.old.at + (1 + width) ≤ length self.old.image }
        ensures operands { let at = self.old.at in
            result.now ≡ slice_range self.old.image (at + 1) (at + (1 + width)) }
        ensures onward { self.new.at ≡ self.old.at + (1 + width) }
        ensures image { self.new.image ≡ self.old.image }
    {
        let (image, from) = (self.image, self.at + 1);
        self.at = from + width;
        &image[from..from + width]
    }

    /// Moves on over `count` bytes, which are there.
    pub fn skip(&mut self, count: usize)
        requires { self.old.at + count ≤ length self.old.image }
        ensures onward { self.new.at ≡ self.old.at + count }
        ensures image { self.new.image ≡ self.old.image }
    {
        self.at += count;
    }

    // The next command: one has to be there, to be due, and to have all its operands.
    pub(crate) fn command<K: Key, V: Value>(&mut self, due: Due) -> Result<Command<'a>, Refusal>
        ensures { CommandOutcome K.kind V.kind due self.old self.new result }
    {
        let (image, at) = (self.image, self.at);
        let Some((byte, rest)) = image[at..].split_first() else {
            return Err(Refusal::Cut { at });
        };
        let Some(width) = due_width::<K, V>(due, *byte) else {
            return Err(Refusal::Broken { at });
        };
        if rest.len() < width {
            return Err(Refusal::Cut { at });
        }
        self.at = at + 1 + width;
        Ok(Command {
            at,
            byte: *byte,
            operands: &rest[..width],
        })
    }

    // Whether all of the image is read.
    pub(crate) fn is_at_end(&self) -> bool
        ensures { result ≡ (length (unread self.now) == 0) }
    {
        self.at == self.image.len()
    }

    // The offset of the next command.
    pub(crate) fn offset(&self) -> usize
        ensures { result ≡ self.now.at }
    {
        self.at
    }
}
