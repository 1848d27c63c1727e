//! The output of a scene: its readers and answers, line by line, and the marks around a call that
//! is tried.
use std::alloc::Global;
use std::fmt::Debug;
use std::io::{Stderr, Stdout, Write};
use std::test::Fail;

/// The lines of a scene, and the output for them and the marks.
#[derive(Drop)]
pub struct Page {
    alloc: Global,
    told: String,
    output: Stdout,
    marks: Stderr,
    /// Whether lines and marks are written, because requests are being refused.
    is_watched: bool,
    /// Whether a line was not written.
    has_failed: bool,
}

impl Page {
    pub fn new(alloc: Global, output: Stdout, marks: Stderr, is_watched: bool) -> Page {
        Page {
            alloc,
            told: String::new(alloc),
            output,
            marks,
            is_watched,
            has_failed: false,
        }
    }

    pub fn alloc(&self) -> Global {
        self.alloc
    }

    fn push(&mut self, text: &str) {
        if self.told.push_str(text).is_err() {
            self.has_failed = true;
        }
    }

    /// Adds a line: its subject, and a text.
    fn say(&mut self, what: &str, text: &str) {
        self.push(what);
        self.push(" ");
        self.push(text);
        self.push("\n");
    }

    /// Adds a line: its subject, and a value.
    pub fn line<T: Debug>(&mut self, what: &str, value: &T) {
        match format!(in self.alloc; "{value:?}") {
            Ok(text) => self.say(what, text.as_str()),
            Err(_) => self.has_failed = true,
        }
    }

    fn mark(&mut self, mark: &[u8]) {
        if self.is_watched {
            let _ = self.marks.write(mark);
        }
    }

    /// Starts counting requests for memory.
    pub fn begin(&mut self) {
        self.mark(b"[");
    }

    /// Stops counting requests for memory.
    pub fn end(&mut self) {
        self.mark(b"]");
    }

    /// Ends a scene, and writes its lines if it is watched.
    pub fn close(&mut self) -> Result<(), Fail> {
        if self.has_failed {
            return Err(Fail::new("a line is missing"));
        }
        if self.is_watched {
            self.output.write_all(self.told.as_bytes())?;
            self.output.flush()?;
        }
        Ok(())
    }
}
