// How keys and values are read from a sheet or a script, and what their kinds are called.
use keys::{Bobbin, Id, Path};
use kinds::Refusal;
use std::fmt::Display;
use std::str::FromStr;
use values::{Flags, Limit, Register};

// The names of the kinds.
pub const KEY_KINDS: &str = "a kind of key: path, id or bobbin";

pub const VALUE_KINDS: &str = "a kind of value: limit, flags or register";

// Why a word is no key or value: its kind refuses it, or it is not written as its kind is.
#[derive(Clone, Copy)]
pub enum Misspelt {
    Refused(Refusal),
    Malformed,
}

pub trait Spelled: Copy + Display {
    // What the kind is called.
    const NAME: &'static str;

    // What a word of this kind looks like.
    const EXPECTED: &'static str;

    fn parse(word: &str) -> Result<Self, Misspelt>;
}

// A number that is written with no +.
pub fn number<N: FromStr>(word: &str) -> Result<N, Misspelt>
where
    N::Err: Drop,
{
    if word.starts_with('+') {
        return Err(Misspelt::Malformed);
    }
    word.parse::<N>().map_err(|_| Misspelt::Malformed)
}

impl Spelled for Path {
    const NAME: &'static str = "path";

    const EXPECTED: &'static str = "a path";

    fn parse(word: &str) -> Result<Self, Misspelt> {
        Path::new(word.as_bytes()).map_err(Misspelt::Refused)
    }
}

impl Spelled for Id {
    const NAME: &'static str = "id";

    const EXPECTED: &'static str = "an id, a number below 4294967296";

    fn parse(word: &str) -> Result<Self, Misspelt> {
        Ok(Id {
            number: number(word)?,
        })
    }
}

impl Spelled for Bobbin {
    const NAME: &'static str = "bobbin";

    const EXPECTED: &'static str = "a bobbin, a number below 256";

    fn parse(word: &str) -> Result<Self, Misspelt> {
        Ok(Bobbin {
            number: number(word)?,
        })
    }
}

impl Spelled for Limit {
    const NAME: &'static str = "limit";

    const EXPECTED: &'static str = "a limit, a number below 4294967296";

    fn parse(word: &str) -> Result<Self, Misspelt> {
        Ok(Limit {
            number: number(word)?,
        })
    }
}

impl Spelled for Flags {
    const NAME: &'static str = "flags";

    const EXPECTED: &'static str = "flags, up to 8 hexadecimal digits";

    fn parse(word: &str) -> Result<Self, Misspelt> {
        if word.starts_with('+') || word.len() > 8 {
            return Err(Misspelt::Malformed);
        }
        let set = u32::from_str_radix(word, 16).map_err(|_| Misspelt::Malformed)?;
        Ok(Flags { set })
    }
}

impl Spelled for Register {
    const NAME: &'static str = "register";

    const EXPECTED: &'static str =
        "a register, STAMP,OFFSET with a stamp below 4294967296 and an offset from -32768 to 32767";

    fn parse(word: &str) -> Result<Self, Misspelt> {
        let (stamp, offset) = word.split_once(',').ok_or(Misspelt::Malformed)?;
        Ok(Register {
            stamp: number(stamp)?,
            offset: number(offset)?,
        })
    }
}
