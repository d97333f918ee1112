// Runs a script on a new store, and writes what came of it.
ghost use Rattle.std.specs.Prelude.{◌≡◌, min};

use super::answers::{with_images, write_account, write_files, write_steps};
use super::calls::{ask_account, calls_of};
use super::fault::Fault;
use super::room::room_of;
use super::script::{Start, Statement, start_of};
use super::spelled::{KEY_KINDS, Spelled, VALUE_KINDS};
use super::steps::{Step, steps};
use keys::{Bobbin, Id, Path};
use kinds::{Key, Value};
use std::rt::Files;
use store::{Answer, run};
use tables::{EntryCell, NodeCell};
use values::{Flags, Limit, Register};

// How many cells are lent: those asked for, and of what is too long anyway no more than it takes to be refused.
fn cells_lent(length: u32) -> usize
    ensures { result ≡ min length 65536 }
{
    length.min(65_536) as usize
}

// Runs the lines after the start.
fn run_over<R: Files + AllocGlobal, K: Key + Spelled, V: Value + Spelled>(
    rt: &R,
    start: &Start,
    said: &str,
    lines: &[Statement],
) -> Result<String, Fault> {
    let heap = rt.alloc();
    let node_cells = cells_lent(start.nodes);
    let entry_cells = cells_lent(start.entries);
    let steps: Vec<Step<K, V>> = steps(rt, lines)?;
    let room = room_of(node_cells, entry_cells, steps.as_slice());
    let mut calls = calls_of(heap, steps.as_slice(), room.image)?;
    let others = calls.len();
    ask_account(&mut calls, room.image)?;
    let mut nodes = vec![in heap; NodeCell::empty(); node_cells]?;
    let mut entries: Vec<EntryCell<K, V>> = vec![in heap; EntryCell::empty(); entry_cells]?;
    let mut answers: Vec<Answer<V>> = vec![in heap; Answer::Done; calls.len()]?;
    let mut buffer: Vec<u8> = vec![in heap; 0; room.all]?;
    let mut out = String::new(heap);
    match run(
        nodes.as_mut_slice(),
        entries.as_mut_slice(),
        calls.as_slice(),
        answers.as_mut_slice(),
        buffer.as_mut_slice(),
    ) {
        Ok(finished) if finished.made < calls.len() => return Err(Fault::Unanswered),
        Ok(_) => {
            let answers = with_images(heap, answers.as_slice(), buffer.as_slice())?;
            let answers = answers.as_slice();
            writeln!(out, "{said}: done")?;
            write_steps(heap, &mut out, steps.as_slice(), answers)?;
            write_account(heap, &mut out, calls.as_slice(), answers, others)?;
            write_files(rt, steps.as_slice(), answers)?;
        }
        Err(not_started) => {
            let number = not_started.refusal.number();
            writeln!(out, "{said}: refused {number}")?;
        }
    }
    Ok(out)
}

fn run_by_value<R: Files + AllocGlobal, K: Key + Spelled>(
    rt: &R,
    start: &Start,
    first: &Statement,
    lines: &[Statement],
) -> Result<String, Fault> {
    let said = first.words.as_slice().join(rt.alloc(), " ")?;
    let said = said.as_str();
    match start.value_kind {
        "limit" => run_over::<R, K, Limit>(rt, start, said, lines),
        "flags" => run_over::<R, K, Flags>(rt, start, said, lines),
        "register" => run_over::<R, K, Register>(rt, start, said, lines),
        _ => Err(Fault::Line {
            number: first.number,
            expected: VALUE_KINDS,
        }),
    }
}

// What the program prints of a script, whose first line is its start; nothing of one that has no line.
pub fn run_script<R: Files + AllocGlobal>(
    rt: &R,
    statements: &[Statement],
) -> Result<String, Fault> {
    let [first, lines @ ..] = statements else {
        return Ok(String::new(rt.alloc()));
    };
    let number = first.number;
    let start = start_of(first.words.as_slice()).map_err(|expected| Fault::Line {
        number,
        expected,
    })?;
    match start.key_kind {
        "path" => run_by_value::<R, Path>(rt, &start, first, lines),
        "id" => run_by_value::<R, Id>(rt, &start, first, lines),
        "bobbin" => run_by_value::<R, Bobbin>(rt, &start, first, lines),
        _ => Err(Fault::Line {
            number,
            expected: KEY_KINDS,
        }),
    }
}
