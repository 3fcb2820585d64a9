ghost use Rattle.std.specs.Prelude.{◌≡◌, ◌↔◌, ℕ, Bool, List, map, None, Some, Err, string_bytes};
ghost use Rattle.rt_base.specs.Source.{Rises};
ghost use Rattle.rt_lines.specs.Reading.{IsTooLong};
ghost use Rattle.rt_live.specs.Lives.{LivesInput, LivesText, Meets, Writes};
ghost use Rattle.rt_live.specs.Words.{journal_asked};

use crate::grounding::live_input;
use crate::live_end::LiveEnd;
use crate::words::journal_asked;
use crate::written::Written;
use rt_base::{Clock, Gate, Sink, Source, Which};
use rt_lines::{PlayFault, ReadStop, read_all};
use rt_lists::Bytes;
use rt_live_input::read_input;
use rt_writing::write_all;
use std::alloc::Global;
use std::sync::Wait;
use std::thread::Threads;

/// Runs the nodes of a cluster by threads over the input that a source gives, and writes its output to a sink: the answers
/// and the ends, and by the word `--journal` what a run can show too.
///
/// The whole input is read before a node starts. A line outside the grammar is `Refused` by its number, and then nothing is
/// written. `Ok` comes only where all of the input is committed and each query is answered over all of it. A fault of the
/// source or the sink comes only where its count of faults rose. `Limit` names what goes beyond its limit. Where an answer
/// comes all nodes have ended. That one comes isn't promised: what is promised holds where the call returns.
#[tactic(auto, using(crate::proofs::Lived::usage_never, crate::proofs::Lived::long_alone, crate::proofs::Lived::completes))]
pub fn live<
    R: Threads + Wait + Copy + Send + Sync,
    S: Source,
    K: Sink,
    C: Clock + Sync,
    G: Gate + Sync,
>(
    rt: R,
    alloc: Global,
    words: &[&str],
    source: &mut S,
    sink: &mut K,
    clock: &C,
    gate: &G,
) -> Result<LiveEnd, PlayFault>
    // Usage comes exactly where the words are none of the program's, and then nothing is read or written.
    ensures usage { (result ≡ Err PlayFault.Usage) ↔ (journal_asked (map (λ word. word.now) words.now) ≡ None) }
    ensures untouched { journal_asked (map (λ word. word.now) words.now) ≡ None
        → (S.meaning source.new ≡ S.meaning source.old) × (K.meaning sink.new ≡ K.meaning sink.old) }

    // The limit of the input is passed only where the source gives more than is taken, and then nothing is written.
    ensures long { result ≡ Err (PlayFault.Limit Which.Input)
        → IsTooLong (S.meaning source.old) (S.meaning source.new) (K.meaning sink.old) (K.meaning sink.new) }

    // What is read and written, by the answer: the nodes of one cluster ran over the input that was read, they ended
    // rightly, and what they came to was written.
    ensures lives { (journal : Bool) → journal_asked (map (λ word. word.now) words.now) ≡ Some journal
        → LivesInput journal (S.meaning source.old) (S.meaning source.new) (K.meaning sink.old) (K.meaning sink.new) result }

    // Where the source tells what is left and no count rises, the answer is one of the input's own, or want of memory.
    ensures complete { (journal : Bool) (text : List ℕ) → journal_asked (map (λ word. word.now) words.now) ≡ Some journal
        → (S.meaning source.old).left ≡ Some text
        → (Rises (S.meaning source.old).faults (S.meaning source.new).faults → ⊥)
        → (Rises (K.meaning sink.old).faults (K.meaning sink.new).faults → ⊥) → Meets text result }
{
    match journal_asked(words) {
        Some(journal) => live_source(rt, alloc, journal, source, sink, clock, gate),
        None => Err(PlayFault::Usage),
    }
}

fn live_source<
    R: Threads + Wait + Copy + Send + Sync,
    S: Source,
    K: Sink,
    C: Clock + Sync,
    G: Gate + Sync,
>(
    rt: R,
    alloc: Global,
    journal: bool,
    source: &mut S,
    sink: &mut K,
    clock: &C,
    gate: &G,
) -> Result<LiveEnd, PlayFault>
    ensures { LivesInput journal (S.meaning source.old) (S.meaning source.new) (K.meaning sink.old) (K.meaning sink.new) result }
{
    match read_all(alloc, source) {
        Ok(text) => live_text(rt, alloc, journal, text, sink, clock, gate),
        Err(ReadStop::Failed) => Err(PlayFault::ReadFault),
        Err(ReadStop::TooLong) => Err(PlayFault::Limit(Which::Input)),
        Err(ReadStop::Memory) => Err(PlayFault::Memory),
    }
}

// What is read of the text is all that is kept of it while the nodes run.
fn live_text<R: Threads + Wait + Copy + Send + Sync, K: Sink, C: Clock + Sync, G: Gate + Sync>(
    rt: R,
    alloc: Global,
    journal: bool,
    text: Bytes,
    sink: &mut K,
    clock: &C,
    gate: &G,
) -> Result<LiveEnd, PlayFault>
    ensures { LivesText journal text (K.meaning sink.old) (K.meaning sink.new) result }
{
    let read = read_input(alloc, text.as_slice());
    drop(text);
    let input = match read {
        Ok(input) => input,
        Err(fault) => return Err(fault),
    };
    match live_input(rt, alloc, journal, input, clock, gate) {
        Ok(written) => write(sink, written),
        Err(_) => Err(PlayFault::Memory),
    }
}

// Writes what a run came to.
fn write<K: Sink>(sink: &mut K, written: Written) -> Result<LiveEnd, PlayFault>
    ensures { Writes (K.meaning sink.old) (K.meaning sink.new) written.ends.items (string_bytes written.text) result }
{
    match write_all(sink, written.text.as_bytes()) {
        Ok(()) => Ok(LiveEnd { ends: written.ends }),
        Err(_) => Err(PlayFault::WriteFault),
    }
}
