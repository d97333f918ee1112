// Runs scripts of a store's calls, unites hand-over sheets, and inspects images: reads a file, prints what came of it.
#![tactic(auto)]

mod answers;
mod calls;
mod commands;
mod fault;
mod inspecting;
mod lines;
mod marks;
mod report;
mod room;
mod running;
mod script;
mod sheet;
mod spelled;
mod steps;
mod unite;

use fault::Fault;
use std::process::ExitCode;
use std::rt::Files;
use std::{env, fs, io};

// The text of the file that is named, or standard input where none is.
fn input(rt: &HostRuntime, file: Option<&str>) -> Result<String, Fault> {
    match file {
        Some(path) => Ok(fs::read_to_string(rt, path)?),
        None => Ok(io::read_to_string(rt.alloc(), rt.stdin())?),
    }
}

// What is printed of a text, which is a script or sheets by its first word.
fn printed<R: Files + AllocGlobal>(rt: &R, text: &str) -> Result<String, Fault> {
    let heap = rt.alloc();
    let lines: Vec<&str> = text.lines().collect(heap)?;
    let lines = lines.as_slice();
    match script::first_word(lines) {
        Some((before, "sheet")) => report::report(heap, lines, before),
        Some((_, "store")) => {
            let statements = script::statements(heap, lines)?;
            running::run_script(rt, statements.as_slice())
        }
        Some((before, _)) => Err(Fault::Line {
            number: before.saturating_add(1),
            expected: "store KEYKIND VALUEKIND NODES ENTRIES, or sheet KEYKIND VALUEKIND",
        }),
        None => report::report(heap, lines, lines.len()),
    }
}

fn run(rt: &HostRuntime) -> Result<(), Fault> {
    let mut args = env::args(rt)?;
    let _program = args.next();
    let (first, second) = (args.next(), args.next());
    let out = match (first.as_deref(), second.as_deref()) {
        (Some("inspect"), Some(path)) => {
            let image = fs::read(rt, path)?;
            inspecting::inspect(rt.alloc(), path, image.as_slice())?
        }
        (file, _) => {
            let text = input(rt, file)?;
            printed(rt, text.as_str())?
        }
    };
    rt.print(out)?;
    Ok(())
}

fn main(rt: HostRuntime) -> ExitCode {
    match run(&rt) {
        Ok(()) => ExitCode::SUCCESS,
        Err(fault) => {
            let _ = eprintln!(rt; "{fault}");
            ExitCode::FAILURE
        }
    }
}
