// How the programs are called: `PROGRAM [FILE]` or `PROGRAM --help`.
use anyhow::anyhow;
use std::io::Read;
use std::{env, fs};

// What a program is asked for.
#[derive(Drop)]
pub enum Command {
    Help,
    // The bytes of the file that was named, or of standard input.
    Run(Vec<u8>),
}

// All bytes of the file of that name; where it cannot be read, standard error says why.
fn read_file(rt: &HostRuntime, program: &str, name: &str) -> anyhow::Result<Vec<u8>> {
    match fs::read(rt, name) {
        Ok(bytes) => Ok(bytes),
        Err(error) => {
            let _ = eprintln!(rt; "{program}: cannot read {name}: {error}");
            Err(error.into())
        }
    }
}

// All bytes of standard input.
fn read_standard_input(rt: &HostRuntime) -> anyhow::Result<Vec<u8>> {
    let mut bytes = Vec::new(rt.alloc());
    rt.stdin().read_to_end(&mut bytes)?;
    Ok(bytes)
}

// Reads the arguments, and what they name.
pub fn read_command(rt: &HostRuntime, program: &str) -> anyhow::Result<Command> {
    let mut args = env::args(rt)?;
    let _ = args.next();
    let Some(name) = args.next() else {
        return Ok(Command::Run(read_standard_input(rt)?));
    };
    if name.as_str() == "--help" {
        return Ok(Command::Help);
    }
    if args.next().is_some() {
        let _ = eprintln!(rt; "{program}: one file at most; see {program} --help");
        return Err(anyhow!("too many arguments"));
    }
    Ok(Command::Run(read_file(rt, program, name.as_str())?))
}
