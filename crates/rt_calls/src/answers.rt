use crate::calls::make_call;
use crate::session::Session;
use rt_call_words::{Answer, Stop, Words};
use std::alloc::{AllocError, Global};

/// The answer of a line, by its number.
pub(crate) fn answer_line(
    alloc: Global,
    session: &mut Session,
    number: u64,
    line: &[u8],
) -> Result<String, AllocError> {
    match answer(alloc, session, line) {
        Ok(answer) => Ok(answer),
        Err(Stop::BadLine) => format!(in alloc; "bad line {number}"),
        Err(Stop::Refused) => String::from_str(alloc, "refused"),
        Err(Stop::Memory) => String::from_str(alloc, "memory"),
    }
}

fn answer(alloc: Global, session: &mut Session, line: &[u8]) -> Result<String, Stop> {
    let Ok(line) = str::from_utf8(line) else {
        return Err(Stop::BadLine);
    };
    match line.strip_prefix("repeat ") {
        Some(rest) => repeat(alloc, session, &mut Words::of(rest)),
        None => answer_once(alloc, session, line),
    }
}

// `repeat N LINE`: the call N times, for measures of time; the answer is that of the last one.
fn repeat(alloc: Global, session: &mut Session, words: &mut Words) -> Result<String, Stop> {
    let times = words.count();
    let line = words.rest();
    words.ended()?;
    let mut last = Err(Stop::Refused);
    for _ in 0..times {
        last = answer_once(alloc, session, line);
    }
    last
}

fn answer_once(alloc: Global, session: &mut Session, line: &str) -> Result<String, Stop> {
    let mut words = Words::of(line);
    let mut answer = Answer::new(alloc);
    let name = words.word();
    make_call(alloc, session, name, &mut words, &mut answer)?;
    answer.into_text()
}
