// Standard input, line by line. A line that fills the memory is too long: it is handed on by its first byte, which is
// no case, and the rest of it is passed over.
ghost use Rattle.std.specs.Prelude.{◌+◌, ◌<◌, ◌≤◌, length, IfSome};

use answers::Out;
use std::io::{Read, Stdin, Stdout};

// What waits between two steps: the text from `next` up to `end`. `long` says that it belongs to a line that
// did not fit.
#[derive(Clone, Copy)]
struct Waiting {
    next: usize,
    end: usize,
    long: bool,
}

// The line that a step found, empty where it found none, and what waits behind it; nothing where the input
// has ended.
#[derive(Clone, Copy)]
struct Found<'a> {
    line: &'a [u8],
    waiting: Option<Waiting>,
}

// Answers every case of standard input, a line each: nothing where it is empty, `bad` where `answer` says
// nothing of it. Nothing says that the input ends, so the steps are counted up to a number that no run gets
// to.
pub fn replay<const N: usize, F: FnMut(&[u8], &mut Out) -> Option<()>>(
    stdin: Stdin,
    stdout: Stdout,
    lines: &mut [u8; N],
    mut answer: F,
)
    requires { F.IsAlwaysCallable answer }
{
    let mut out = Out::new(stdout);
    let mut waiting = Waiting {
        next: 0,
        end: 0,
        long: false,
    };
    for _ in 0..u64::MAX {
        let found = step(stdin, lines, waiting);
        if let Some(case) = case_of(found.line) {
            let said = answer(case, &mut out);
            out.end(said);
        }
        let Some(more) = found.waiting else { break };
        waiting = more;
    }
    out.flush();
}

// One step: the next line, or one read.
fn step(stdin: Stdin, lines: &mut [u8], waiting: Waiting) -> Found<'_> {
    // No more waits than the memory holds: the two minima spare a contract that says so.
    let end = waiting.end.min(lines.len());
    let next = waiting.next.min(end);
    if let Some(many) = line_length(lines, next, end) {
        let stop = next + many;
        // A line that did not fit was answered by its first byte.
        let start = if waiting.long { stop } else { next };
        return Found {
            line: &lines[start..stop],
            waiting: Some(Waiting {
                next: stop + 1,
                end,
                long: false,
            }),
        };
    }
    if waiting.long {
        return read_on(stdin, lines, 0, true);
    }
    keep(stdin, lines, next, end)
}

// How long the line is that starts at `next` and ends before `end`.
fn line_length(lines: &[u8], next: usize, end: usize) -> Option<usize>
    requires { next ≤ end × end ≤ length lines.now }
    ensures { IfSome result (λ many. next + many < end) }
{
    lines[next..end].iter().position(|byte| *byte == b'\n')
}

// Reads on behind what waits, or hands its first byte on where it fills the memory.
fn keep(stdin: Stdin, lines: &mut [u8], next: usize, end: usize) -> Found<'_>
    requires { next ≤ end × end ≤ length lines.old }
{
    let held = end - next;
    if held == lines.len() {
        return Found {
            line: &lines[..held.min(1)],
            waiting: Some(Waiting {
                next: end,
                end,
                long: true,
            }),
        };
    }
    move_front(lines, next, held);
    read_on(stdin, lines, held, false)
}

// Reads once, behind the `held` bytes at the front. At the end of the input, or where a read fails, they are its last line.
fn read_on(stdin: Stdin, lines: &mut [u8], held: usize, long: bool) -> Found<'_>
    requires { held ≤ length lines.old }
{
    let mut stdin = stdin;
    let n = stdin.read(&mut lines[held..]).unwrap_or(0);
    if n == 0 {
        return Found {
            line: &lines[..held],
            waiting: None,
        };
    }
    Found {
        line: &[],
        waiting: Some(Waiting {
            next: 0,
            end: held + n,
            long,
        }),
    }
}

// Moves the n bytes from `from` on to the front. A loop: std's slices have no `copy_within`.
fn move_front(text: &mut [u8], from: usize, n: usize)
    requires { from + n ≤ length text.old }
{
    for i in 0..n {
        text[i] = text[from + i];
    }
}

// The case of a line; none of an empty one or a comment.
fn case_of(line: &[u8]) -> Option<&[u8]> {
    match line {
        [] | [b'#', ..] => None,
        _ => Some(line),
    }
}
