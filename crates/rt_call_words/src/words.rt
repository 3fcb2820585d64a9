ghost use Rattle.std.specs.Prelude.{◌≤◌, length};

use crate::{Segment, Stop};
use hex::FromHexError;
use rt_base::{Instance, Partition, Sequence};
use rt_lists::Text;
use std::alloc::Global;

/// The words that a call is given, read from the front. A word that is none of its kind is noted, and zero or nothing
/// stands for it; `ended` then refuses the line.
#[derive(Drop)]
pub struct Words<'a> {
    rest: Option<&'a str>,
    fault: Option<Stop>,
}

impl<'a> Words<'a> {
    /// The words of a text.
    pub fn of(text: &'a str) -> Words<'a> {
        Words {
            rest: Some(text),
            fault: None,
        }
    }

    /// Whether all was read, and each word was one of its kind; else the first fault.
    pub fn ended(&self) -> Result<(), Stop> {
        match self.fault {
            Some(fault) => Err(fault),
            None if self.rest.is_some() => Err(Stop::BadLine),
            None => Ok(()),
        }
    }

    // Notes a fault, if there was none before.
    fn note(&mut self, fault: Stop) {
        if self.fault.is_none() {
            self.fault = Some(fault);
        }
    }

    /// What stands before the next such character, or the end.
    pub fn until(&mut self, at: char) -> &'a str {
        let rest = self.rest();
        match rest.split_once(at) {
            Some((word, behind)) => {
                self.rest = Some(behind);
                word
            }
            None => rest,
        }
    }

    /// The next word.
    pub fn word(&mut self) -> &'a str {
        self.until(' ')
    }

    /// All that is left.
    pub fn rest(&mut self) -> &'a str {
        match self.rest {
            Some(rest) => {
                self.rest = None;
                rest
            }
            None => {
                self.note(Stop::BadLine);
                ""
            }
        }
    }

    /// What is left, if anything is.
    pub fn more(&mut self) -> Option<&'a str> {
        let rest = self.rest;
        self.rest = None;
        rest
    }

    /// Whether the next word is the second of two.
    pub fn is_second(&mut self, first: &str, second: &str) -> bool {
        let word = self.word();
        if word != first && word != second {
            self.note(Stop::BadLine);
        }
        word == second
    }

    /// A number of 64 bits, before such a character.
    pub fn number_until(&mut self, at: char) -> u64 {
        let word = self.until(at);
        self.number_in(word)
    }

    fn number_in(&mut self, word: &str) -> u64 {
        match word.parse::<u64>() {
            Ok(number) => number,
            Err(_) => {
                self.note(Stop::BadLine);
                0
            }
        }
    }

    /// A number of 32 bits, before such a character.
    pub fn count_until(&mut self, at: char) -> u32 {
        let word = self.until(at);
        self.count_in(word)
    }

    fn count_in(&mut self, word: &str) -> u32 {
        match word.parse::<u32>() {
            Ok(count) => count,
            Err(_) => {
                self.note(Stop::BadLine);
                0
            }
        }
    }

    /// A number of 64 bits.
    pub fn number(&mut self) -> u64 {
        self.number_until(' ')
    }

    /// A number of 32 bits.
    pub fn count(&mut self) -> u32 {
        self.count_until(' ')
    }

    /// A number of 32 bits with its sign.
    pub fn int(&mut self) -> i32 {
        match self.word().parse::<i32>() {
            Ok(number) => number,
            Err(_) => {
                self.note(Stop::BadLine);
                0
            }
        }
    }

    /// A number of 64 bits with its sign.
    pub fn long(&mut self) -> i64 {
        match self.word().parse::<i64>() {
            Ok(number) => number,
            Err(_) => {
                self.note(Stop::BadLine);
                0
            }
        }
    }

    /// Numbers of 32 bits up to the end, or `-`.
    pub fn counts(&mut self, alloc: Global) -> Vec<u32> {
        let mut counts = Vec::new(alloc);
        let list = self.rest();
        if list == "-" {
            return counts;
        }
        for word in list.split(' ') {
            let count = self.count_in(word);
            if counts.push(count).is_err() {
                self.note(Stop::Memory);
            }
        }
        counts
    }

    /// Numbers of 64 bits with commas between them, or `-`, before such a character.
    pub fn numbers_until(&mut self, alloc: Global, at: char) -> Vec<u64> {
        let mut numbers = Vec::new(alloc);
        let list = self.until(at);
        if list == "-" {
            return numbers;
        }
        for word in list.split(',') {
            let number = self.number_in(word);
            if numbers.push(number).is_err() {
                self.note(Stop::Memory);
            }
        }
        numbers
    }

    /// Bytes in hexadecimal, or `-`.
    pub fn bytes(&mut self, alloc: Global) -> Vec<u8> {
        let word = self.word();
        if word == "-" {
            return Vec::new(alloc);
        }
        match hex::decode(alloc, word) {
            Ok(bytes) => bytes,
            Err(error) => {
                self.note(fault_of(error));
                Vec::new(alloc)
            }
        }
    }

    /// Whether what is left begins with such a character.
    pub fn begins_with(&self, first: char) -> bool {
        self.rest.unwrap_or("").starts_with(first)
    }

    /// A message, which is all that is left: as it stands where it begins with a brace, in hexadecimal otherwise.
    pub fn message(&mut self, alloc: Global) -> Vec<u8> {
        if self.begins_with('{') {
            self.plain(alloc)
        } else {
            self.bytes(alloc)
        }
    }

    fn plain(&mut self, alloc: Global) -> Vec<u8> {
        match self.rest().as_bytes().to_vec(alloc) {
            Ok(bytes) => bytes,
            Err(_) => {
                self.note(Stop::Memory);
                Vec::new(alloc)
            }
        }
    }

    /// A text as JSON has it. It may have spaces in it.
    pub fn json(&mut self, alloc: Global) -> Text {
        let rest = self.rest().as_bytes();
        let (written, behind) = rest.split_at(json_length(rest));
        self.leave(behind);
        match text_of(alloc, written) {
            Ok(text) => text,
            Err(fault) => {
                self.note(fault);
                Text::new(alloc)
            }
        }
    }

    // Leaves what stands behind a space.
    fn leave(&mut self, behind: &'a [u8]) {
        match behind {
            [] => {}
            [b' ', rest @ ..] => match str::from_utf8(rest) {
                Ok(rest) => self.rest = Some(rest),
                Err(_) => self.note(Stop::BadLine),
            },
            _ => self.note(Stop::BadLine),
        }
    }

    /// `P/Q`, before such a character.
    pub fn segment_until(&mut self, at: char) -> Segment {
        let partition = Partition(self.count_until('/'));
        let sequence = Sequence(self.count_until(at));
        Segment {
            partition,
            sequence,
        }
    }

    /// `sK`, before such a character.
    pub fn instance_until(&mut self, at: char) -> Instance {
        let word = self.until(at);
        self.instance_in(word)
    }

    fn instance_in(&mut self, word: &str) -> Instance {
        let number = word.strip_prefix('s').unwrap_or("");
        Instance(self.count_in(number))
    }

    /// `sK,sL,..`, or `-`.
    pub fn instances(&mut self, alloc: Global) -> Vec<Instance> {
        let mut instances = Vec::new(alloc);
        let list = self.word();
        if list == "-" {
            return instances;
        }
        for word in list.split(',') {
            let instance = self.instance_in(word);
            if instances.push(instance).is_err() {
                self.note(Stop::Memory);
            }
        }
        instances
    }
}

fn fault_of(error: FromHexError) -> Stop {
    match error {
        FromHexError::OutOfMemory => Stop::Memory,
        _ => Stop::BadLine,
    }
}

// The bytes up to the quote that ends the text which the first byte begins.
fn json_length(words: &[u8]) -> usize
    ensures { result ≤ length words.now }
{
    let mut is_escaped = false;
    for (place, byte) in words.iter().enumerate() {
        if place > 0 && *byte == b'"' && !is_escaped {
            return place + 1;
        }
        is_escaped = *byte == b'\\' && !is_escaped;
    }
    words.len()
}

fn text_of(alloc: Global, written: &[u8]) -> Result<Text, Stop> {
    let Ok(written) = str::from_utf8(written) else {
        return Err(Stop::BadLine);
    };
    let value = match serde_json::Value::from_str(alloc, written) {
        Ok(value) => value,
        Err(error) if error.is_memory() => return Err(Stop::Memory),
        Err(_error) => return Err(Stop::BadLine),
    };
    match value {
        serde_json::Value::String(text) => Ok(Text::of(text)),
        _other => Err(Stop::BadLine),
    }
}
