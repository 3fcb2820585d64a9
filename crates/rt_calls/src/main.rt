//! Answers calls of the crates, one for each line of standard input.
//!
//! A line is a word that names the call, a space and what the call is given; its answer is one line of standard
//! output. Empty lines and lines that begin with `#` have no answer. Some lines leave something to later ones, as
//! a schema does. `docs/rules/calls.md` has all words.
#![tactic(auto)]

mod answers;
mod calls;
mod session;

use answers::answer_line;
use rt_lines::Lines;
use session::Session;
use std::alloc::Global;
use std::io::{self, BufWriter, Read, Write};

fn main(rt: HostRuntime) -> io::Result<()> {
    let alloc = rt.alloc();
    let mut input = Vec::new(alloc);
    rt.reader().read_to_end(&mut input)?;
    let mut out = BufWriter::new(alloc, io::writer(&rt))?;
    answer_all(alloc, input.as_slice(), &mut out)?;
    out.flush()
}

fn answer_all<W: Write>(alloc: Global, input: &[u8], out: &mut W) -> io::Result<()> {
    let mut session = Session::new(alloc);
    let mut lines = Lines::make(input);
    while let Some((number, line)) = lines.next() {
        let answer = answer_line(alloc, &mut session, number, line)?;
        writeln!(out, "{answer}")?;
    }
    Ok(())
}
