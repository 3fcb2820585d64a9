ghost use Rattle.std.specs.Prelude.{◌≡◌, ◌+◌, ◌<◌, ◌≤◌, ◌^◌, [], ◌∷◌, length, drop, IfSome, IfNone, IfOk, IfErr};
ghost use Rattle.std.specs.Str.Lines.{strip_carriage_return};
ghost use Rattle.rt_lines.specs.Lines.{script_lines, lines_of, lines_from, is_skipped, BeginsUnskipped, length_of_line};

use std::marker::Model;

/// The lines of a script that aren't skipped, one after the other.
#[derive(Drop)]
pub struct Lines<'a> {
    rest: &'a [u8],
    number: u64,
}

impl<'a> Model for Lines<'a> {
    ghost use Rattle.std.specs.Prelude.{◌+◌, ◌<◌, ◌^◌, length};
    ghost use Rattle.rt_lines.specs.Lines.{ScriptLines, lines_from};

    ghost Value = { ScriptLines };

    ghost view = { λ l. lines_from l.number l.rest.now };

    ghost invariant = { λ l. l.number + length l.rest.now < 2 ^ 64 };
}

impl<'a> Lines<'a> {
    /// The lines of this text. Each ends with a newline, which the last may lack.
    pub fn make(input: &'a [u8]) -> Lines<'a>
        ensures { result ≡ script_lines input.entry.now }
    {
        Lines {
            rest: input,
            number: 1,
        }
    }

    /// The same lines, to be read once more.
    pub(crate) fn again(&self) -> Lines<'a>
        ensures { result ≡ self.now }
    {
        Lines {
            rest: self.rest,
            number: self.number,
        }
    }

    /// The next line that isn't skipped, and its number, counted from 1. It comes without its newline
    /// and without a carriage return before that. Empty lines and lines that begin with `#` are
    /// skipped, and count.
    pub fn next(&mut self) -> Option<(u64, &'a [u8])>
        ensures line { IfSome result (λ line. self.old.lines ≡ (line.0, line.1.now) ∷ self.new.lines) }
        ensures none { IfNone result ((self.old.lines ≡ []) × (self.new.lines ≡ [])) }
        ensures after { self.new.after ≡ self.old.after }
        ensures few { length self.new.lines < 2 ^ 64 }
    {
        match self.take() {
            Ok(line) => Some(line),
            Err(_) => None,
        }
    }

    /// The next line, as `next` gives it, or the number after the last line.
    #[tactic(auto, using(crate::proofs::Cuts::few_lines))]
    pub(crate) fn take(&mut self) -> Result<(u64, &'a [u8]), u64>
        ensures line { IfOk result (λ line. self.old.lines ≡ (line.0, line.1.now) ∷ self.new.lines) }
        ensures none { IfErr result (λ number. (self.old.lines ≡ []) × (self.new.lines ≡ []) × (number ≡ self.old.after)) }
        ensures after { self.new.after ≡ self.old.after }
        ensures few { length self.new.lines < 2 ^ 64 }
    {
        let (rest, number) = past_skipped(self.rest, self.number);
        if rest.is_empty() {
            self.rest = rest;
            self.number = number;
            return Err(number);
        }
        let (line, rest) = split_line(rest);
        self.rest = rest;
        self.number = number + 1;
        Ok((number, line))
    }
}

// What is left behind the lines that are skipped, and the number of its first line.
fn past_skipped(bytes: &[u8], first: u64) -> (&[u8], u64)
    requires { first + length bytes.now < 2 ^ 64 }
    ensures same { lines_from result.1 result.0.now ≡ lines_from first bytes.now }
    ensures fits { result.1 + length result.0.now < 2 ^ 64 }
    ensures unskipped { BeginsUnskipped (lines_of result.0.now) }
{
    let mut rest = bytes;
    let mut number = first;
    while !rest.is_empty() {
        let (line, behind) = split_line(rest);
        if !is_comment(line) {
            break;
        }
        rest = behind;
        number += 1;
    }
    (rest, number)
}

// Whether a line is skipped.
fn is_comment(line: &[u8]) -> bool
    ensures { result ≡ is_skipped line.now }
{
    match line {
        [] => true,
        [first, ..] => *first == b'#',
    }
}

// The first line, without its ending, and what comes behind it.
#[tactic(auto, using(crate::proofs::Cuts::lines_of_first))]
fn split_line(bytes: &[u8]) -> (&[u8], &[u8])
    requires { 0 < length bytes.now }
    ensures first { lines_of bytes.now ≡ result.0.now ∷ lines_of result.1.now }
    ensures shorter { length result.1.now < length bytes.now }
{
    let (line, rest) = bytes.split_at(line_length(bytes));
    (without_return(line), past_newline(rest))
}

// What comes behind the newline that a rest begins with.
fn past_newline(rest: &[u8]) -> &[u8]
    ensures { result.now ≡ drop 1 rest.now }
{
    match rest {
        [] => rest,
        [_, behind @ ..] => behind,
    }
}

// The number of bytes before the first newline.
fn line_length(bytes: &[u8]) -> usize
    ensures length { result ≡ length_of_line bytes.now }
    ensures within { result ≤ length bytes.now }
{
    for (end, byte) in bytes.iter().enumerate() {
        if *byte == b'\n' {
            return end;
        }
    }
    bytes.len()
}

// A line without the carriage return at its end.
fn without_return(line: &[u8]) -> &[u8]
    ensures { result.now ≡ strip_carriage_return line.now }
{
    let end = line.len();
    if end > 0 && line[end - 1] == b'\r' {
        &line[..end - 1]
    } else {
        line
    }
}
