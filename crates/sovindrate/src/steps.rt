// The lines of a script over given kinds: what each asks for, with the image that it brings.
use super::fault::Fault;
use super::script::{Ask, Source, Statement, Target, ask_of};
use super::spelled::{Misspelt, Spelled};
use hex::FromHexError;
use kinds::Refusal;
use std::alloc::{AllocError, Global};
use std::fs;
use std::rt::Files;
use store::Call;

// A line: its number, its words with single blanks, and what it asks for, or why it is no call.
#[derive(Drop)]
pub struct Step<'a, K, V> {
    pub number: usize,
    pub said: String,
    pub asks: Result<Ask<'a, K, V>, Refusal>,
    // what a load brings; no bytes at other lines
    pub image: Vec<u8>,
}

impl<'a, K, V> Step<'a, K, V> {
    // The file that it saves an image to.
    pub fn file(&self) -> Option<&'a str> {
        match &self.asks {
            Ok(Ask::Save(_, Target::File(file))) => Some(*file),
            _ => None,
        }
    }
}

// A key or a value, or the refusal of its kind; where a word is not written as its kind is, what it should have been.
fn parse<T: Spelled>(word: &str) -> Result<Result<T, Refusal>, &'static str> {
    match T::parse(word) {
        Ok(x) => Ok(Ok(x)),
        Err(Misspelt::Refused(refusal)) => Ok(Err(refusal)),
        Err(Misspelt::Malformed) => Err(T::EXPECTED),
    }
}

// The call with its key and its value, or the refusal of one of them.
fn spell_call<'a, K: Spelled, V: Spelled>(
    call: Call<&'a [u8], &str, &str>,
) -> Result<Result<Call<&'a [u8], K, V>, Refusal>, &'static str> {
    match call {
        Call::Open(p) => Ok(Ok(Call::Open(p))),
        Call::OpenFrom(p, q) => Ok(Ok(Call::OpenFrom(p, q))),
        Call::Put(p, key, value) => match (parse(key)?, parse(value)?) {
            (Ok(key), Ok(value)) => Ok(Ok(Call::Put(p, key, value))),
            (Err(refusal), _) | (_, Err(refusal)) => Ok(Err(refusal)),
        },
        Call::Remove(p, key) => Ok(parse(key)?.map(|key| Call::Remove(p, key))),
        Call::Union(p, q) => Ok(Ok(Call::Union(p, q))),
        Call::Merge(p, base, theirs) => Ok(Ok(Call::Merge(p, base, theirs))),
        Call::Publish(p) => Ok(Ok(Call::Publish(p))),
        Call::Abandon(p) => Ok(Ok(Call::Abandon(p))),
        Call::Retire(p) => Ok(Ok(Call::Retire(p))),
        Call::Load(p, image) => Ok(Ok(Call::Load(p, image))),
        Call::LookUp(p, key) => Ok(parse(key)?.map(|key| Call::LookUp(p, key))),
        Call::Count(p) => Ok(Ok(Call::Count(p))),
        Call::Compare(p, q) => Ok(Ok(Call::Compare(p, q))),
        Call::Save(p, room) => Ok(Ok(Call::Save(p, room))),
        Call::Free => Ok(Ok(Call::Free)),
    }
}

// The same of all that a line can ask for.
fn spell<'a, K: Spelled, V: Spelled>(
    ask: Ask<'a, &str, &str>,
) -> Result<Result<Ask<'a, K, V>, Refusal>, &'static str> {
    match ask {
        Ask::Call(call) => Ok(spell_call(call)?.map(|call| Ask::Call(call))),
        Ask::Load(p, source) => Ok(Ok(Ask::Load(p, source))),
        Ask::Save(p, target) => Ok(Ok(Ask::Save(p, target))),
    }
}

// The image that a line has in hexadecimal digits.
fn digits<K, V>(heap: Global, ask: &Ask<K, V>) -> Result<Vec<u8>, FromHexError> {
    match ask {
        Ask::Load(_, Source::Digits("-")) => Ok(Vec::new(heap)),
        Ask::Load(_, Source::Digits(word)) => hex::decode(heap, *word),
        _ => Ok(Vec::new(heap)),
    }
}

// What a line asks for.
fn step_of<'a, K: Spelled, V: Spelled>(
    heap: Global,
    statement: &Statement<'a>,
) -> Result<Step<'a, K, V>, Fault> {
    let number = statement.number;
    let words = statement.words.as_slice();
    let ask = ask_of(words).map_err(|expected| Fault::Line { number, expected })?;
    let image = match digits(heap, &ask) {
        Ok(image) => image,
        Err(FromHexError::OutOfMemory) => return Err(Fault::Memory(AllocError)),
        Err(_) => {
            return Err(Fault::Line {
                number,
                expected: "an image, an even number of hexadecimal digits, or -",
            });
        }
    };
    let asks = spell(ask).map_err(|expected| Fault::Line { number, expected })?;
    let said = words.join(heap, " ")?;
    Ok(Step {
        number,
        said,
        asks,
        image,
    })
}

// The lines after a script's start. The images that are in files come when every line is understood.
pub fn steps<'a, R: Files + AllocGlobal, K: Spelled, V: Spelled>(
    rt: &R,
    statements: &[Statement<'a>],
) -> Result<Vec<Step<'a, K, V>>, Fault> {
    let heap = rt.alloc();
    let mut steps = Vec::new(heap);
    for statement in statements {
        steps.push(step_of(heap, statement)?)?;
    }
    for step in steps.iter_mut() {
        if let Ok(Ask::Load(_, Source::File(path))) = step.asks {
            let number = step.number;
            step.image = fs::read(rt, path).map_err(|error| Fault::File { number, error })?;
        }
    }
    Ok(steps)
}
