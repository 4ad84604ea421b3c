// Checks journeys against a plan: for each the mark that it reaches, or where it breaks.
#![tactic(auto)]

ghost use Rattle.std.specs.Prelude.{◌≡◌, true};
ghost use Rattle.plan.specs.Check.{sound_words};
ghost use Rattle.plan.specs.Words.{Whole};

mod reading;
mod telling;

use anyhow::anyhow;
use files::command::{Command, read_command};
use files::opening::open_plan;
use journey::checking::check_journey;
use plan::timetable::Timetable;
use reading::read_told;
use telling::Verdict;

const HELP: &str = "usage: inspect [FILE]

Reads a plan and then journeys from FILE (standard input where no file is
named): from, time, to, count of legs, then run and number of each leg. For each
it prints the mark that the journey reaches, as `45/2`: there at 45 with two
boats; or `broken at I`, the first leg that is not in the plan, does not run or
does not follow the one before (the count of legs, where the last one does not
lead to the pier). docs/FORMAT.md has the file.
";

// Checks all journeys that stand in the file from a byte on.
fn check_all(
    rt: &HostRuntime,
    table: Timetable<'_>,
    bytes: &[u8],
    start: usize,
) -> anyhow::Result<()> {
    let mut at = start;
    // By place, since a journey that is cut short is told by its byte.
    while at < bytes.len() {
        let Some(told) = read_told(rt.alloc(), &bytes[at..])? else {
            let _ = eprintln!(rt; "inspect: the journey at byte {at} is cut short");
            return Err(anyhow!("a journey is cut short"));
        };
        rt.println(Verdict(check_journey(table, told.question, &told.legs)))?;
        at += 16 + 8 * told.legs.len();
    }
    Ok(())
}

fn main(rt: HostRuntime) -> anyhow::Result<()> {
    let Command::Run(bytes) = read_command(&rt, "inspect")? else {
        rt.print(HELP)?;
        return Ok(());
    };
    match open_plan(rt.alloc(), &bytes)? {
        Ok(words) => check_all(&rt, Timetable::of(&words), &bytes, 4 * words.len()),
        Err(refusal) => {
            rt.println(refusal)?;
            Ok(())
        }
    }
}
