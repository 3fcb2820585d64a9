ghost use Rattle.std.specs.Prelude.{◌≡◌, ◌↔◌, ℕ, List, map, Some, None, Err};
ghost use Rattle.rt_base.specs.Source.{Rises};
ghost use Rattle.rt_lines.specs.Reading.{IsTooLong};
ghost use Rattle.rt_play.specs.Generating.{TellsGenerated};
ghost use Rattle.rt_play.specs.Headline.{PlaysRightly, TellsRightly};
ghost use Rattle.rt_play.specs.Plays.{Meets, PlaysInput};
ghost use Rattle.rt_play.specs.Words.{asked_of};
ghost use Rattle.rt_play.specs.declared.generating.Generated.{Generated};
ghost use Rattle.rt_play.specs.declared.words.Asked.TheVariants as Asked;

use crate::PlayEnd;
use crate::generating::generate;
use crate::running::play_input;
use crate::words::{Asked, read_words};
use rt_base::{Sink, Source, Which};
use rt_lines::{PlayFault, ReadStop, read_all};
use std::alloc::Global;

/// Runs the script that a source gives, and writes its report to a sink; by the words `gen SEED PARTITIONS ROWS` a
/// generated run, which reads nothing.
///
/// The whole input is read before the first line runs. A line outside the grammar, or whose event is refused, is
/// `Refused` by its number; the lines before it are reported. A fault of the source or the sink comes
/// only where its count of faults rose. `Limit` names what goes beyond its limit.
#[tactic(auto, using(crate::proofs::Headlines::plays_rightly, crate::proofs::Headlines::tells_rightly, crate::proofs::Completes::completes, crate::proofs::Completes::long_alone, crate::proofs::GeneratedLimits::unlimited_alone))]
pub fn play<S: Source, K: Sink>(
    alloc: Global,
    words: &[&str],
    source: &mut S,
    sink: &mut K,
) -> Result<PlayEnd, PlayFault>
    // Usage comes exactly where the words are none of the program's, and then nothing is read or written.
    ensures usage { (result ≡ Err PlayFault.Usage) ↔ (asked_of (map (λ word. word.now) words.now) ≡ None) }
    ensures untouched { asked_of (map (λ word. word.now) words.now) ≡ None → (S.meaning source.new ≡ S.meaning source.old) × (K.meaning sink.new ≡ K.meaning sink.old) }

    // The limit of the input is passed only where the source gives more than is taken, and then nothing is written.
    ensures long { result ≡ Err (PlayFault.Limit Which.Input) → IsTooLong (S.meaning source.old) (S.meaning source.new) (K.meaning sink.old) (K.meaning sink.new) }

    // What is read and written of a script, by the answer: the report is one of the input that was read.
    ensures plays { asked_of (map (λ word. word.now) words.now) ≡ Some Asked.Script → PlaysInput (S.meaning source.old) (S.meaning source.new) (K.meaning sink.old) (K.meaning sink.new) result }

    // The report comes with the run of its lines, up to the end of that at which it stops: every world on the way is right, and keeps what
    // those before it had, and no answer of an `answer` event misses anything without its cause in the turns before it.
    ensures headline { asked_of (map (λ word. word.now) words.now) ≡ Some Asked.Script → PlaysRightly (S.meaning source.old) (S.meaning source.new) (K.meaning sink.old) (K.meaning sink.new) result }

    // Where the source tells what is left and no count rises, the answer is one of the script's own, or want of memory.
    ensures complete { (input : List ℕ) → asked_of (map (λ word. word.now) words.now) ≡ Some Asked.Script → (S.meaning source.old).left ≡ Some input →
        (Rises (S.meaning source.old).faults (S.meaning source.new).faults → ⊥) →
        (Rises (K.meaning sink.old).faults (K.meaning sink.new).faults → ⊥) → Meets input result }

    // A generated run reads nothing.
    ensures unread { (asked : Generated) → asked_of (map (λ word. word.now) words.now) ≡ Some (Asked.Generated asked) → S.meaning source.new ≡ S.meaning source.old }

    // What it writes, by its answer: the report is that of its rows, its settling and its query.
    ensures generated { (asked : Generated) → asked_of (map (λ word. word.now) words.now) ≡ Some (Asked.Generated asked) → TellsGenerated asked (K.meaning sink.old) (K.meaning sink.new) result }

    // And it comes with its run, in which every world is right.
    ensures rightly { (asked : Generated) → asked_of (map (λ word. word.now) words.now) ≡ Some (Asked.Generated asked) → TellsRightly asked (K.meaning sink.old) (K.meaning sink.new) result }
{
    match read_words(words) {
        Some(Asked::Script) => play_source(alloc, source, sink),
        Some(Asked::Generated(asked)) => generate(alloc, asked, sink),
        None => Err(PlayFault::Usage),
    }
}

fn play_source<S: Source, K: Sink>(
    alloc: Global,
    source: &mut S,
    sink: &mut K,
) -> Result<PlayEnd, PlayFault>
    ensures { PlaysInput (S.meaning source.old) (S.meaning source.new) (K.meaning sink.old) (K.meaning sink.new) result }
{
    match read_all(alloc, source) {
        Ok(input) => play_input(alloc, input.as_slice(), sink),
        Err(ReadStop::Failed) => Err(PlayFault::ReadFault),
        Err(ReadStop::TooLong) => Err(PlayFault::Limit(Which::Input)),
        Err(ReadStop::Memory) => Err(PlayFault::Memory),
    }
}
