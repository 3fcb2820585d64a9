use crate::Stop;
use serde_json::json;
use std::alloc::{AllocError, Global};

/// The text of an answer, as it is written. Want of memory is noted, and refuses the answer in the end.
#[derive(Drop)]
pub struct Answer {
    text: String,
    is_short: bool,
}

impl Answer {
    /// An answer with nothing in it.
    pub fn new(alloc: Global) -> Answer {
        Answer {
            text: String::new(alloc),
            is_short: false,
        }
    }

    /// What was written.
    pub fn into_text(self) -> Result<String, Stop> {
        if self.is_short {
            Err(Stop::Memory)
        } else {
            Ok(self.text)
        }
    }

    /// Whether memory sufficed so far: a call that leaves something to later lines asks before it does.
    pub fn written(&self) -> Result<(), Stop> {
        if self.is_short {
            Err(Stop::Memory)
        } else {
            Ok(())
        }
    }

    fn note(&mut self, written: Result<(), AllocError>) {
        if written.is_err() {
            self.is_short = true;
        }
    }

    /// Adds a text.
    pub fn add(&mut self, text: &str) {
        let written = self.text.push_str(text);
        self.note(written);
    }

    /// Adds what stands between two parts, before each part but the first.
    pub fn part(&mut self, place: usize, between: &str) {
        if place > 0 {
            self.add(between);
        }
    }

    /// Adds a number.
    pub fn number(&mut self, number: u64) {
        let written = write!(self.text, "{number}");
        self.note(written);
    }

    /// Adds a number of 32 bits.
    pub fn count(&mut self, count: u32) {
        self.number(u64::from(count));
    }

    /// Adds a number with its sign.
    pub fn long(&mut self, number: i64) {
        let written = write!(self.text, "{number}");
        self.note(written);
    }

    /// Adds `true` or `false`.
    pub fn truth(&mut self, truth: bool) {
        self.add(if truth { "true" } else { "false" });
    }

    /// Adds numbers with spaces between them, or `-`.
    pub fn counts(&mut self, counts: &[u32]) {
        if counts.is_empty() {
            self.add("-");
        }
        for (place, count) in counts.iter().enumerate() {
            self.part(place, " ");
            self.count(*count);
        }
    }

    /// Adds bytes in hexadecimal, or `-`.
    pub fn bytes(&mut self, alloc: Global, bytes: &[u8]) {
        if bytes.is_empty() {
            self.add("-");
        }
        match hex::encode(alloc, bytes) {
            Ok(digits) => self.add(digits.as_str()),
            Err(_) => self.is_short = true,
        }
    }

    /// Adds a text as JSON has it.
    pub fn json(&mut self, alloc: Global, text: &str) {
        match json_of(alloc, text) {
            Ok(json) => self.add(json.as_str()),
            Err(_) => self.is_short = true,
        }
    }
}

fn json_of(alloc: Global, text: &str) -> Result<String, AllocError> {
    let value = json!(in alloc; text)?;
    value.to_string(alloc)
}
