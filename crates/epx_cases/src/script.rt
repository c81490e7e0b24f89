//! Runs scripts, case by case.
use crate::case::Case;
use std::alloc::{AllocGlobal, Global};
use std::io::{self, Print};
use std::random::RandomSource;
use std::rt::{Env, Files};
use std::thread::Threads;
use std::{env, fs};

/// Runs the case with these lines, and prints its result. Lines that begin with `#` are comments.
fn run_case<R>(rt: &R, alloc: Global, written: &str) -> io::Result<()>
where
    R: AllocGlobal + Files + Print + Threads + RandomSource + Sync,
{
    let mut lines = written
        .lines()
        .skip_while(|line| line.is_empty() || line.starts_with('#'));
    let Some(head) = lines.next() else {
        return Ok(());
    };
    let mut case = Case::new(alloc, head);
    for line in lines {
        match line.strip_prefix("file ") {
            Some(path) => case.read_file(rt, line, path)?,
            None => case.read_line(alloc, line)?,
        }
    }
    case.run(rt, alloc)
}

/// Runs the cases of a script. Blank lines separate them.
fn run_script<R>(rt: &R, alloc: Global, script: &str) -> io::Result<()>
where
    R: AllocGlobal + Files + Print + Threads + RandomSource + Sync,
{
    for written in script.split("\n\n") {
        run_case(rt, alloc, written)?;
    }
    Ok(())
}

/// Runs the scripts at the paths that are the words of this program. Returns whether `--scripts`
/// is one of the words, with which the program runs nothing else.
pub(crate) fn run_scripts<R>(rt: &R) -> io::Result<bool>
where
    R: AllocGlobal + Env + Files + Print + Threads + RandomSource + Sync,
{
    let mut is_alone = false;
    for path in env::args(rt)?.skip(1) {
        if path.as_str() == "--scripts" {
            is_alone = true;
            continue;
        }
        println!(rt; "== {path}")?;
        match fs::read_to_string(rt, path.as_str()) {
            Ok(script) => run_script(rt, rt.alloc(), script.as_str())?,
            Err(_) => println!(rt; "the script can not be read")?,
        }
    }
    Ok(is_alone)
}
