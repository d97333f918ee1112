// What the store answered to a script: printed line by line, then the account, and the images that go into files.
use super::fault::Fault;
use super::marks::Marks;
use super::spelled::Spelled;
use super::steps::Step;
use kinds::{Key, Refusal, Value};
use std::alloc::{AllocError, Global};
use std::fs;
use std::rt::Files;
use store::{Answer, Call};

// An answer, and the image of a save; of another call no bytes.
#[derive(Clone, Copy)]
pub struct Answered<'a, V> {
    pub answer: Answer<V>,
    pub image: &'a [u8],
}

// The answers with their images, which stand in the buffer one after another.
pub fn with_images<'a, V: Copy>(
    heap: Global,
    answers: &[Answer<V>],
    buffer: &'a [u8],
) -> Result<Vec<Answered<'a, V>>, Fault> {
    let mut all = Vec::new(heap);
    let mut rest = buffer;
    for answer in answers {
        let (image, after) = rest
            .split_at_checked(answer.written())
            .ok_or(Fault::Unanswered)?;
        all.push(Answered {
            answer: *answer,
            image,
        })?;
        rest = after;
    }
    Ok(all)
}

fn write_refusal(out: &mut String, refusal: Refusal) -> Result<(), AllocError> {
    let number = refusal.number();
    match refusal.offset() {
        Some(at) => writeln!(out, "refused {number} at {at}"),
        None => writeln!(out, "refused {number}"),
    }
}

// An image by its length and its bytes.
fn write_image(heap: Global, out: &mut String, image: &[u8]) -> Result<(), AllocError> {
    let digits = hex::encode_upper(heap, image)?;
    writeln!(out, "{} bytes {digits}", image.len())
}

fn write_answer<V: Spelled>(
    heap: Global,
    out: &mut String,
    answered: &Answered<V>,
) -> Result<(), AllocError> {
    match answered.answer {
        Answer::Done => writeln!(out, "done"),
        Answer::Took(nodes, entries) => writeln!(out, "took {nodes} nodes, {entries} entries"),
        Answer::Found(Some(value)) => writeln!(out, "value {value}"),
        Answer::Found(None) => writeln!(out, "nothing"),
        Answer::Counted(settings) => writeln!(out, "{settings} settings"),
        Answer::Equal(true) => writeln!(out, "equal"),
        Answer::Equal(false) => writeln!(out, "different"),
        Answer::Saved(_) => write_image(heap, out, answered.image),
        Answer::Spare(nodes, entries) => writeln!(out, "free {nodes} nodes, {entries} entries"),
        Answer::Refused(refusal) => write_refusal(out, refusal),
    }
}

// What is printed after the words of a line.
fn write_reply<K: Copy, V: Spelled>(
    heap: Global,
    out: &mut String,
    step: &Step<K, V>,
    answered: &Answered<V>,
) -> Result<(), AllocError> {
    if let Some(file) = step.file()
        && let Answer::Saved(length) = answered.answer
    {
        return writeln!(out, "{length} bytes to {file}");
    }
    write_answer(heap, out, answered)
}

// A line for each line of the script: a call by its number, from 1, and its answer; a refused key has no number.
pub fn write_steps<K: Copy, V: Spelled>(
    heap: Global,
    out: &mut String,
    steps: &[Step<K, V>],
    answers: &[Answered<V>],
) -> Result<(), Fault> {
    let mut made = 0;
    for step in steps {
        let said = step.said.as_str();
        match &step.asks {
            Ok(_) => {
                let Some(answered) = answers.get(made) else {
                    return Err(Fault::Unanswered);
                };
                made += 1;
                write!(out, "{made} {said}: ")?;
                write_reply(heap, out, step, answered)?;
            }
            Err(refusal) => {
                write!(out, "- {said}: ")?;
                write_refusal(out, *refusal)?;
            }
        }
    }
    Ok(())
}

// The live places by rising number, and what is free: from the calls that ask for it, which begin after so many others.
pub fn write_account<K: Key, V: Value + Spelled>(
    heap: Global,
    out: &mut String,
    calls: &[Call<&[u8], K, V>],
    answers: &[Answered<V>],
    others: usize,
) -> Result<(), AllocError> {
    let mut marks = Marks::new();
    for (call, answered) in calls.iter().zip(answers.iter()) {
        marks.note(call, &answered.answer);
    }
    writeln!(out, "account")?;
    for (call, answered) in calls.iter().zip(answers.iter()).skip(others) {
        match (call, answered.answer) {
            (Call::Count(place), Answer::Counted(settings)) => {
                let mark = marks.at(*place);
                write!(out, "place {place} {mark}: {settings} settings, ")?;
            }
            (Call::Save(..), Answer::Saved(_)) | (Call::Free, _) => {
                write_answer(heap, out, answered)?;
            }
            _ => {}
        }
    }
    Ok(())
}

// Writes the images that the script saves to files.
pub fn write_files<K: Copy, V: Copy>(
    rt: &impl Files,
    steps: &[Step<K, V>],
    answers: &[Answered<V>],
) -> Result<(), Fault> {
    let called = steps.iter().filter(|step| step.asks.is_ok());
    for (step, answered) in called.zip(answers.iter()) {
        if let Some(file) = step.file()
            && let Answer::Saved(_) = answered.answer
        {
            let number = step.number;
            fs::write(rt, file, answered.image).map_err(|error| Fault::File { number, error })?;
        }
    }
    Ok(())
}
