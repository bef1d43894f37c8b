// The program: reads a page script and says what each of its words says.
#![tactic(auto)]

use anyhow::anyhow;
use std::io::Read;
use std::{env, fs};

mod keep;
mod listing;

const USAGE: &str = "usage: cutsheet list [FILE]
  lists the words of the page script in FILE, or in standard input, one to a line,
  and stores them through gathering layers in plain memory and in flash.
  A script is text: hexadecimal words with or without 0x, any white space, # for comments.";

// The text of a script, from a file if one is named, else from standard input.
fn script_text(rt: &HostRuntime, path: Option<String>) -> anyhow::Result<Vec<u8>> {
    match path {
        Some(path) => {
            println!(rt; "opening {path}")?;
            Ok(fs::read(rt, path.as_str())?)
        }
        None => {
            println!(rt; "reading standard input")?;
            let mut text = Vec::new(rt.alloc());
            rt.stdin().read_to_end(&mut text)?;
            Ok(text)
        }
    }
}

fn list(rt: &HostRuntime, path: Option<String>) -> anyhow::Result<()> {
    let text = script_text(rt, path)?;
    let words = listing::words_of(rt.alloc(), &text)?;
    listing::print(rt, &words)?;
    keep::print(rt, &words)
}

fn run(rt: &HostRuntime) -> anyhow::Result<()> {
    let mut args = env::args(rt)?.skip(1);
    let Some(command) = args.next() else {
        println!(rt; "{USAGE}")?;
        return Ok(());
    };
    if command.as_str() == "list" {
        return list(rt, args.next());
    }
    eprintln!(rt; "{USAGE}")?;
    Err(anyhow!("there is no such command"))
}

fn main(rt: HostRuntime) -> anyhow::Result<()> {
    run(&rt)
}
