// The office: opens the plan that a file begins with, and does the requests behind it.
#![tactic(auto)]

mod day;
mod kind;
mod reading;
mod telling;

use anyhow::anyhow;
use day::serve_file;
use files::command::{Command, read_command};
use plan::refusal::Refusal;
use reading::Fault;
use serving::response::Response;
use telling::text_of;

const HELP: &str = "usage: office [FILE]

Opens the plan of piers, legs and walks that FILE begins with (standard input
where no file is named) and does the requests behind it, in order. For a question
it prints the marks worth telling, as `35/1 30/2`: there at 35 with one boat, or
at 30 with two; and under them the itinerary for each, as `0.0 1.0`: run and
number of its legs. A delay, a cancelled leg or an extra one changes the plan, and
nothing is printed. Of an itinerary that was given it says `still` or `gone`. What
cannot be done gets `refused N at P`. docs/FORMAT.md has the file, docs/RULES.md the
refusals.
";

// So many responses are written at once.
const CHUNK: usize = 1024;

fn print_all(rt: &HostRuntime, responses: &[Result<Response, Refusal>]) -> anyhow::Result<()> {
    for chunk in responses.chunks(CHUNK) {
        rt.print(text_of(rt.alloc(), chunk)?)?;
    }
    Ok(())
}

// Says where a file cannot be read on, and why.
fn tell_fault(rt: &HostRuntime, fault: Option<Fault>) -> anyhow::Result<()> {
    let Some(fault) = fault else {
        return Ok(());
    };
    let _ = eprintln!(rt; "office: {fault}");
    Err(anyhow!("a request cannot be read"))
}

fn main(rt: HostRuntime) -> anyhow::Result<()> {
    let Command::Run(bytes) = read_command(&rt, "office")? else {
        rt.print(HELP)?;
        return Ok(());
    };
    match serve_file(rt.alloc(), &bytes)? {
        Ok(day) => {
            print_all(&rt, &day.responses)?;
            tell_fault(&rt, day.fault)
        }
        Err(refusal) => {
            rt.println(refusal)?;
            Ok(())
        }
    }
}
