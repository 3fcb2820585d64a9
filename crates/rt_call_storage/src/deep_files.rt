use rt_call_words::{Answer, Stop, Words};
use rt_deep::{DeepRefused, DeepStore, MemoryDeep};
use std::alloc::Global;

/// `deep ..`: calls of the deep store in memory.
pub fn deep(
    alloc: Global,
    deep: &mut MemoryDeep,
    words: &mut Words,
    answer: &mut Answer,
) -> Result<(), Stop> {
    match words.word() {
        "make" => {
            words.ended()?;
            *deep = MemoryDeep::make(alloc);
            answer.add("ok");
            Ok(())
        }
        "put" => put(alloc, deep, words, answer),
        "get" => get(alloc, deep, words, answer),
        "fault" => fault(deep, words, answer),
        _ => Err(Stop::BadLine),
    }
}

// `put PATH BYTES`
fn put(
    alloc: Global,
    deep: &mut MemoryDeep,
    words: &mut Words,
    answer: &mut Answer,
) -> Result<(), Stop> {
    let path = words.word();
    let bytes = words.bytes(alloc);
    words.ended()?;
    match deep.put(alloc, path, bytes.as_slice()) {
        Ok(()) => {
            answer.add("ok");
            Ok(())
        }
        Err(refused) => refuse(alloc, refused, answer),
    }
}

// `get PATH`
fn get(
    alloc: Global,
    deep: &mut MemoryDeep,
    words: &mut Words,
    answer: &mut Answer,
) -> Result<(), Stop> {
    let path = words.word();
    words.ended()?;
    match deep.get(alloc, path) {
        Ok(bytes) => {
            answer.bytes(alloc, bytes.as_slice());
            Ok(())
        }
        Err(refused) => refuse(alloc, refused, answer),
    }
}

// `fault lost` or `fault kept`
fn fault(deep: &mut MemoryDeep, words: &mut Words, answer: &mut Answer) -> Result<(), Stop> {
    let is_kept = words.is_second("lost", "kept");
    words.ended()?;
    deep.plan_fault(is_kept)?;
    answer.add("ok");
    Ok(())
}

fn refuse(alloc: Global, refused: DeepRefused, answer: &mut Answer) -> Result<(), Stop> {
    match refused {
        DeepRefused::Absent => answer.add("absent"),
        DeepRefused::OtherBytes { kept, offered } => {
            answer.add("other ");
            answer.bytes(alloc, kept.as_slice());
            answer.add(" ");
            answer.bytes(alloc, offered.as_slice());
        }
        DeepRefused::Failed => answer.add("failed"),
        DeepRefused::Memory => return Err(Stop::Memory),
    }
    Ok(())
}
