// What the programs `verify` and `replay` share: the words they are given, the texts that any program can say, and telling of trouble.
#![tactic(auto)]

ghost use Rattle.std.specs.Prelude.{◌≡◌};
ghost use Rattle.program.specs.Told.{told};

use std::fmt::{Debug, Display};
use std::{env, io};

// What a program says of itself.
pub struct Program<'a> {
    pub name: &'a str,
    pub help: &'a str,
    pub version: &'a str,
}

// Standard error has told of the trouble.
#[derive(Clone, Copy, PartialEq, Eq, Debug)]
pub struct Told;

impl Program<'_> {
    // Tells of a trouble under the program's name.
    pub fn tell(&self, rt: &HostRuntime, trouble: impl Display + Drop) -> Told {
        let name = self.name;
        let _ = eprintln!(rt; "{name}: {trouble}");
        Told
    }

    // The words behind the program's name; none where they ask for the help or the version, which is then written.
    pub fn words(&self, rt: &HostRuntime) -> Result<Option<Vec<String>>, Told> {
        let words = arguments(rt).map_err(|trouble| self.tell(rt, trouble))?;
        let text = match words.as_slice() {
            [flag] if flag.as_str() == "--help" => self.help,
            [flag] if flag.as_str() == "--version" => self.version,
            _ => return Ok(Some(words)),
        };
        report(rt, say(rt, text))?;
        Ok(None)
    }
}

fn arguments(rt: &HostRuntime) -> io::Result<Vec<String>> {
    Ok(env::args(rt)?.skip(1).collect(rt.alloc())?)
}

fn say(rt: &HostRuntime, text: &str) -> anyhow::Result<()> {
    println!(rt; "{text}")?;
    Ok(())
}

// Tells of an error that no message has told of yet; a value comes through.
pub fn report<T: Drop, E: Debug + Drop>(rt: &HostRuntime, answer: Result<T, E>) -> Result<T, Told>
    ensures { result ≡ told answer }
{
    match answer {
        Ok(value) => Ok(value),
        Err(trouble) => {
            let _ = eprintln!(rt; "Error: {trouble:?}");
            Err(Told)
        }
    }
}
