// Rank, determinant and U of a matrix, modulo 2,147,483,647: of the Matrix Market text in the file that the
// argument names, or of standard input where there is no argument.
#![tactic(auto)]

mod work;

ghost use Rattle.std.specs.Prelude.{◌≤◌, length, IfOk};

use sparse::Refusal;
use std::env::FillError;
use std::fmt::Display;
use std::fs::File;
use std::io::{Print, Read};
use std::process::ExitCode;
use std::rt::Env;
use std::{io, str};
use work::OUT;

// The longest text that is read, and one byte more, by which a longer one is known.
const TEXT: usize = 32769;

// The longest path, and one byte more.
const PATH: usize = 4096;

fn main(rt: HostRuntime) -> ExitCode {
    let mut path = [0u8; PATH];
    match rt.arg(1, &mut path) {
        Ok(length) => tell_file(&rt, &path[..length]),
        Err(FillError::NotPresent) => tell(&rt, &mut rt.stdin(), "standard input"),
        Err(FillError::TooLong) => fail(&rt, "argument", "File name too long"),
    }
}

fn tell_file(rt: &HostRuntime, path: &[u8]) -> ExitCode {
    // No `?`: the exit status is no Result, and the message is its own.
    let Ok(path) = str::from_utf8(path) else {
        return fail(rt, "argument", "not UTF-8");
    };
    match File::open(rt, path) {
        Ok(mut file) => tell(rt, &mut file, path),
        Err(error) => fail(rt, path, error),
    }
}

// Prints what there is to say of a text.
fn tell(rt: &HostRuntime, from: &mut impl Read, name: &str) -> ExitCode {
    let mut text = [0u8; TEXT];
    match read_full(from, &mut text) {
        Ok(n) => print_report(rt, &text[..n]),
        Err(error) => fail(rt, name, error),
    }
}

// Reads up to the text's end, or as much as there is memory for, and says how many bytes these are.
// A while: a read may give any number of bytes, so the count goes on by more than one.
fn read_full(from: &mut impl Read, text: &mut [u8; TEXT]) -> io::Result<usize>
    ensures { IfOk result (λ n. n ≤ length text.new) }
{
    let mut done = 0;
    while done < TEXT {
        let n = from.read(&mut text[done..])?;
        if n == 0 {
            return Ok(done);
        }
        done += n;
    }
    Ok(done)
}

fn print_report(rt: &HostRuntime, text: &[u8]) -> ExitCode {
    let mut out = [0u8; OUT];
    let printed = match work::report(text, &mut out) {
        Ok(n) => print_front(rt, &out, n),
        Err(why) => print_refused(rt, why),
    };
    match printed {
        Ok(()) => ExitCode::SUCCESS,
        Err(error) => fail(rt, "standard output", error),
    }
}

// The first n bytes. There are never more than `out` holds: the test spares a contract that says so.
fn print_front(rt: &HostRuntime, out: &[u8], n: usize) -> io::Result<()> {
    rt.write_all(out.get(..n).unwrap_or(&[]))
}

fn print_refused(rt: &HostRuntime, why: Refusal) -> io::Result<()> {
    println!(rt; "{why}")
}

// Prints a message on standard error; one that can't be written is lost.
fn fail(rt: &HostRuntime, name: &str, why: impl Display + Drop) -> ExitCode {
    let _ = eprintln!(rt; "{name}: {why}");
    ExitCode::FAILURE
}
