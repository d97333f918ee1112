// What a script says: the words of its lines, and what words ask for. A word that begins with # starts a comment.
use super::spelled::number;
use std::alloc::{AllocError, Global};
use store::Call;

// A line that has words: its number in the text, from 1, and the words up to its comment.
#[derive(Drop)]
pub struct Statement<'a> {
    pub number: usize,
    pub words: Vec<&'a str>,
}

// How many of some lines come before the first that has words, and the first of these.
pub fn first_word<'a>(lines: &[&'a str]) -> Option<(usize, &'a str)> {
    for (before, line) in lines.iter().enumerate() {
        let words = line.trim_start();
        if !words.is_empty() && !words.starts_with('#') {
            return words.split_whitespace().next().map(|word| (before, word));
        }
    }
    None
}

// Those of some lines that have words.
pub fn statements<'a>(heap: Global, lines: &[&'a str]) -> Result<Vec<Statement<'a>>, AllocError> {
    let mut all = Vec::new(heap);
    for (i, line) in lines.iter().enumerate() {
        let words: Vec<&str> = line
            .split_whitespace()
            .take_while(|word| !word.starts_with('#'))
            .collect(heap)?;
        if !words.is_empty() {
            all.push(Statement {
                number: i + 1,
                words,
            })?;
        }
    }
    Ok(all)
}

// The kinds and the tables' lengths that a script starts with.
#[derive(Clone, Copy)]
pub struct Start<'a> {
    pub key_kind: &'a str,
    pub value_kind: &'a str,
    pub nodes: u32,
    pub entries: u32,
}

// Where the image of a load comes from.
#[derive(Clone, Copy)]
pub enum Source<'a> {
    // hexadecimal digits, or - for an image of no bytes
    Digits(&'a str),
    File(&'a str),
}

// Where a saved image goes.
#[derive(Clone, Copy)]
pub enum Target<'a> {
    // it is printed, from a buffer that any image fits in, or of so many bytes
    Printed,
    PrintedFrom(u32),
    File(&'a str),
}

// What a line asks for: a call, but that a load has no image yet, and a save no buffer.
#[derive(Clone, Copy)]
pub enum Ask<'a, K, V> {
    Call(Call<&'a [u8], K, V>),
    Load(u32, Source<'a>),
    Save(u32, Target<'a>),
}

fn length(word: &str) -> Result<u32, &'static str> {
    number(word).map_err(|_| "a table's length, a number below 4294967296")
}

fn place(word: &str) -> Result<u32, &'static str> {
    number(word).map_err(|_| "a place, a number below 4294967296")
}

fn room(word: &str) -> Result<u32, &'static str> {
    number(word).map_err(|_| "a buffer's length, a number below 4294967296")
}

// The start that words are, or what they should have been.
pub fn start_of<'a>(words: &[&'a str]) -> Result<Start<'a>, &'static str> {
    match words {
        ["store", key_kind, value_kind, nodes, entries] => Ok(Start {
            key_kind: *key_kind,
            value_kind: *value_kind,
            nodes: length(*nodes)?,
            entries: length(*entries)?,
        }),
        _ => Err("store KEYKIND VALUEKIND NODES ENTRIES"),
    }
}

// What words ask for, a key and a value still as words, or what they should have been.
pub fn ask_of<'a>(words: &[&'a str]) -> Result<Ask<'a, &'a str, &'a str>, &'static str> {
    match words {
        ["load", p, "from", file] => Ok(Ask::Load(place(*p)?, Source::File(*file))),
        ["load", p, digits] => Ok(Ask::Load(place(*p)?, Source::Digits(*digits))),
        ["load", ..] => Err("load P HEX, or load P from FILE"),
        ["save", p] => Ok(Ask::Save(place(*p)?, Target::Printed)),
        ["save", p, n] => Ok(Ask::Save(place(*p)?, Target::PrintedFrom(room(*n)?))),
        ["save", p, "to", file] => Ok(Ask::Save(place(*p)?, Target::File(*file))),
        ["save", ..] => Err("save P, save P ROOM, or save P to FILE"),
        _ => Ok(Ask::Call(call_of(words)?)),
    }
}

// The same of the calls that need nothing more.
fn call_of<'a>(words: &[&'a str]) -> Result<Call<&'a [u8], &'a str, &'a str>, &'static str> {
    match words {
        ["open", p] => Ok(Call::Open(place(*p)?)),
        ["open", p, q] => Ok(Call::OpenFrom(place(*p)?, place(*q)?)),
        ["put", p, key, value] => Ok(Call::Put(place(*p)?, *key, *value)),
        ["remove", p, key] => Ok(Call::Remove(place(*p)?, *key)),
        ["union", p, q] => Ok(Call::Union(place(*p)?, place(*q)?)),
        ["merge", p, base, theirs] => Ok(Call::Merge(place(*p)?, place(*base)?, place(*theirs)?)),
        ["publish", p] => Ok(Call::Publish(place(*p)?)),
        ["abandon", p] => Ok(Call::Abandon(place(*p)?)),
        ["retire", p] => Ok(Call::Retire(place(*p)?)),
        ["lookup", p, key] => Ok(Call::LookUp(place(*p)?, *key)),
        ["count", p] => Ok(Call::Count(place(*p)?)),
        ["compare", p, q] => Ok(Call::Compare(place(*p)?, place(*q)?)),
        ["free"] => Ok(Call::Free),
        ["open", ..] => Err("open P, or open P Q"),
        ["put", ..] => Err("put P KEY VALUE"),
        ["remove", ..] => Err("remove P KEY"),
        ["union", ..] => Err("union P Q"),
        ["merge", ..] => Err("merge P BASE THEIRS"),
        ["publish", ..] => Err("publish P"),
        ["abandon", ..] => Err("abandon P"),
        ["retire", ..] => Err("retire P"),
        ["lookup", ..] => Err("lookup P KEY"),
        ["count", ..] => Err("count P"),
        ["compare", ..] => Err("compare P Q"),
        ["free", ..] => Err("free"),
        _ => Err(
            "a call: open, put, remove, union, merge, publish, abandon, retire, load, lookup, count, compare, save or free",
        ),
    }
}
