//! The program: what `learn` finds in a graph for a table of wanted rows, and a graph as `convert` writes it.
#![tactic(auto)]

mod answer;
mod command;
mod converting;
mod ending;
mod graph_reader;
mod learning;
mod opening;
mod program;
mod query_reader;
mod reader;
mod report;
mod running;
mod table_form;
mod table_reader;
#[cfg(test)]
mod tests;

use bye_io::{RealErr, RealFolder, RealOut};
use bye_terms::{Memory, Text, push_item};
use bye_words::Status;
use program::run_program;
use std::alloc::Global;
use std::io::ErrorKind;
use std::process::ExitCode;
use std::{env, io};

/// The words that were given; none, where one is no UTF-8.
fn given(rt: &HostRuntime, alloc: Global) -> Result<Vec<Text>, Memory> {
    let mut words = Vec::new(alloc);
    let args = match env::args(rt) {
        Ok(args) => args,
        Err(err) => {
            return match err.kind() {
                ErrorKind::OutOfMemory => Err(Memory),
                _ => Ok(words),
            };
        }
    };
    for arg in args.skip(1) {
        push_item(&mut words, Text::copy_of(alloc, arg.as_str())?)?;
    }
    Ok(words)
}

fn main(rt: HostRuntime) -> ExitCode {
    let alloc = rt.alloc();
    let Ok(words) = given(&rt, alloc) else {
        return Status::Memory.exit_code();
    };
    let mut folder = RealFolder::new(&rt);
    let mut out = RealOut::new(io::writer(&rt));
    let stderr = rt.stderr();
    let mut err = RealErr::new(io::writer(&stderr));
    run_program(alloc, words.as_slice(), &mut folder, &mut out, &mut err).exit_code()
}
