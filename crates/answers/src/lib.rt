// The answers' text, in the form of replay's FORMAT.md. It waits in memory, which is written out where it is full, and at the end of
// the run. A write that fails is passed over.
#![tactic(auto)]

ghost use Rattle.std.specs.Prelude.{◌≤◌, ◌≡◌};

use itoa::{Buffer, Integer};
use sparse::Refusal;
use std::io::{Print, Stdout};

// How many bytes may wait.
pub const ROOM: usize = 65536;

// The bytes that wait, how many these are, and where they go.
#[derive(Drop)]
pub struct Out {
    bytes: [u8; ROOM],
    fill: usize,
    to: Stdout,
    ghost within: { fill ≤ 65536 },
}

impl Out {
    // Before the run: nothing waits.
    pub fn new(to: Stdout) -> Out {
        Out {
            bytes: [0; ROOM],
            fill: 0,
            to,
        }
    }

    // Writes the bytes that wait to standard output.
    pub fn flush(&mut self)
        ensures { self.new.fill ≡ 0 }
    {
        let _ = self.to.write_all(&self.bytes[..self.fill]);
        self.fill = 0;
    }

    // One byte.
    fn put_byte(&mut self, byte: u8) {
        if self.fill == ROOM {
            self.flush();
        }
        self.bytes[self.fill] = byte;
        self.fill += 1;
    }

    // Some bytes.
    pub fn put(&mut self, text: &[u8]) {
        for byte in text {
            self.put_byte(*byte);
        }
    }

    // A number, in decimal.
    pub fn put_number<I: Integer>(&mut self, number: I) {
        self.put(Buffer::new().format(number).as_bytes());
    }

    // A word, a space and a number.
    pub fn put_count<I: Integer>(&mut self, word: &[u8], number: I) {
        self.put(word);
        self.put_byte(b' ');
        self.put_number(number);
    }

    // A refusal, by its number.
    pub fn put_refused(&mut self, why: Refusal) {
        self.put_count(b"refused", u32::from(why));
    }

    // What a call that makes a matrix or a vector answers.
    pub fn put_built(&mut self, built: Result<usize, Refusal>) {
        match built {
            Ok(entries) => self.put_count(b"made", entries),
            Err(why) => self.put_refused(why),
        }
    }

    // Ends the answer's line. A malformed case, of which nothing was said, has put nothing before.
    pub fn end(&mut self, said: Option<()>) {
        if said.is_none() {
            self.put(b"bad");
        }
        self.put(b"\n");
    }

    // A lent list after the call: its runs of equal elements, each with its length where that is not one.
    pub fn put_list<T: Integer + PartialEq>(&mut self, list: &[T]) {
        if list.is_empty() {
            self.put(b" | -");
        }
        let mut mark: &[u8] = b" | ";
        for run in list.chunk_by(|a, b| a == b) {
            self.put(mark);
            self.put_run(run);
            mark = b",";
        }
    }

    fn put_run<T: Integer>(&mut self, run: &[T]) {
        // Nothing to hand None on to: `chunk_by` gives no empty run.
        let Some(value) = run.first() else { return };
        self.put_number(*value);
        if run.len() > 1 {
            self.put_byte(b'*');
            self.put_number(run.len());
        }
    }
}
