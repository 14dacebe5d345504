// Reads a library of clips and queries from standard input, line by line, and answers each line.
#![tactic(auto)]

mod answer;
mod asking;
mod command;
mod keeping;
mod library;
mod refusal;
mod reply;
mod session;

use crate::command::read_command;
use crate::refusal::Trouble;
use crate::session::Session;
use anyhow::anyhow;
use lines::{FieldsError, Lines};
use std::io::Read;

// So many bytes of the input are read.
const LIMIT: usize = 16384;

const NO_MEMORY: &str = "no memory left";

// Answers one line.
fn answer_line(
    rt: &HostRuntime,
    session: &mut Session,
    number: usize,
    line: &[u8],
) -> anyhow::Result<()> {
    let command = match read_command(rt.alloc(), line) {
        Ok(command) => command,
        Err(FieldsError::Malformed) => return Ok(println!(rt; "line {number}: bad line")?),
        Err(FieldsError::Memory) => return Err(anyhow!(NO_MEMORY)),
    };
    match session.obey(rt.alloc(), command) {
        Ok(reply) => Ok(println!(rt; "{reply}")?),
        Err(Trouble::Refused(refusal)) => Ok(println!(rt; "line {number}: {refusal}")?),
        Err(Trouble::Memory) => Err(anyhow!(NO_MEMORY)),
    }
}

// Answers each line of an input. Where it was cut at the limit, what follows the last line feed is one bad line.
fn answer_all(rt: &HostRuntime, input: &[u8], was_cut: bool) -> anyhow::Result<()> {
    let mut session = Session::default();
    for (number, line) in (1..).zip(Lines::of(input)) {
        if was_cut && !line.ended {
            println!(rt; "line {number}: bad line")?;
        } else if line.ended || !line.text.is_empty() {
            answer_line(rt, &mut session, number, line.text)?;
        }
    }
    Ok(())
}

fn run(rt: &HostRuntime) -> anyhow::Result<()> {
    let mut input = Vec::new(rt.alloc());
    // By `as`: a constant, and between usize and u64 there is no From.
    rt.stdin().take(LIMIT as u64 + 1).read_to_end(&mut input)?;
    let was_cut = input.len() > LIMIT;
    input.truncate(LIMIT);
    answer_all(rt, &input, was_cut)
}

fn main(rt: HostRuntime) -> anyhow::Result<()> {
    run(&rt)
}
