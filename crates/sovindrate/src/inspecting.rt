// Lists an image command by command, and says whether it is accepted.
use super::commands::{Command, Placed, commands, split_command};
use super::fault::Fault;
use super::spelled::Spelled;
use image_reader::judge;
use keys::{Bobbin, Id, Path};
use kinds::{Coded, Key, Refusal, Value};
use std::alloc::{AllocError, Global};
use values::{Flags, Limit, Register};

// What is written of an image so far.
#[derive(Drop)]
struct Listing {
    out: String,
    // the depths of the nodes that are still due, that of the next one last
    due: Vec<usize>,
}

impl Listing {
    fn new(heap: Global) -> Listing {
        Listing {
            out: String::new(heap),
            due: Vec::new(heap),
        }
    }

    // The depth of the node that comes next. Its children are due now.
    fn next_depth(&mut self, children: u32) -> Result<usize, AllocError> {
        let depth = self.due.pop().unwrap_or(0);
        for _child in 0..children {
            self.due.push(depth.saturating_add(1))?;
        }
        Ok(depth)
    }

    fn write_command<K: Key + Spelled, V: Value + Spelled>(
        &mut self,
        placed: &Placed<K, V>,
    ) -> Result<(), AllocError> {
        write!(self.out, "{} ", placed.at)?;
        match placed.command {
            Command::Header {
                edition,
                key_code,
                value_code,
            } => writeln!(
                self.out,
                "header: edition {edition}, keys {key_code:02X}, values {value_code:02X}"
            ),
            Command::Node { data_map, node_map } => {
                let depth = self.next_depth(node_map.count_ones())?;
                writeln!(
                    self.out,
                    "node: depth {depth}, data map {data_map:04X}, node map {node_map:04X}"
                )
            }
            Command::Entry { key, value } => {
                let hash = key.hash();
                writeln!(self.out, "entry: {key}, value {value}, hash {hash:08X}")
            }
            Command::Crowd { entries } => {
                let depth = self.next_depth(0)?;
                writeln!(self.out, "collision node: depth {depth}, {entries} entries")
            }
            Command::End { entries } => writeln!(self.out, "end: {entries} entries"),
        }
    }

    fn write_judgement(&mut self, judged: Result<(), Refusal>) -> Result<(), AllocError> {
        match judged {
            Ok(()) => writeln!(self.out, "accepted"),
            Err(refusal) => {
                let number = refusal.number();
                match refusal.offset() {
                    Some(at) => writeln!(self.out, "refused {number} at {at}"),
                    None => writeln!(self.out, "refused {number}"),
                }
            }
        }
    }
}

// What stands before the first faulty command.
fn faultless(image: &[u8], judged: Result<(), Refusal>) -> &[u8] {
    match judged {
        Ok(()) => image,
        Err(refusal) => refusal
            .offset()
            .and_then(|at| image.get(..at))
            .unwrap_or(&[]),
    }
}

fn inspect_as<K: Key + Spelled, V: Value + Spelled>(
    heap: Global,
    file: &str,
    image: &[u8],
) -> Result<String, Fault> {
    let judged = judge::<K, V>(image);
    let mut listing = Listing::new(heap);
    writeln!(
        listing.out,
        "inspect {file}: {} bytes, {} {}",
        image.len(),
        K::NAME,
        V::NAME
    )?;
    for placed in commands::<K, V>(heap, faultless(image, judged))?.iter() {
        listing.write_command(placed)?;
    }
    listing.write_judgement(judged)?;
    Ok(listing.out)
}

// An image that names no known kinds: as of any kinds, it is refused at its first byte.
fn inspect_foreign(heap: Global, file: &str, image: &[u8]) -> Result<String, Fault> {
    let mut listing = Listing::new(heap);
    writeln!(listing.out, "inspect {file}: {} bytes", image.len())?;
    listing.write_judgement(judge::<Path, Limit>(image))?;
    Ok(listing.out)
}

fn inspect_by_value<K: Key + Spelled>(
    heap: Global,
    file: &str,
    image: &[u8],
    value_code: u8,
) -> Result<String, Fault> {
    match value_code {
        Limit::CODE => inspect_as::<K, Limit>(heap, file, image),
        Flags::CODE => inspect_as::<K, Flags>(heap, file, image),
        Register::CODE => inspect_as::<K, Register>(heap, file, image),
        _ => inspect_foreign(heap, file, image),
    }
}

// The codes of the kinds that a header names; any kinds will do to read it.
fn named_codes(image: &[u8]) -> Option<(u8, u8)> {
    let (command, _) = split_command::<Path, Limit>(image)?;
    match command {
        Command::Header {
            key_code,
            value_code,
            ..
        } => Some((key_code, value_code)),
        _ => None,
    }
}

// What the program prints of an image in a file.
pub fn inspect(heap: Global, file: &str, image: &[u8]) -> Result<String, Fault> {
    match named_codes(image) {
        Some((Path::CODE, value_code)) => inspect_by_value::<Path>(heap, file, image, value_code),
        Some((Id::CODE, value_code)) => inspect_by_value::<Id>(heap, file, image, value_code),
        Some((Bobbin::CODE, value_code)) => {
            inspect_by_value::<Bobbin>(heap, file, image, value_code)
        }
        _ => inspect_foreign(heap, file, image),
    }
}
