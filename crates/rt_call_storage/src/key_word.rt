use rt_call_words::{Answer, Words};
use rt_dict::Key;
use rt_lists::Text;
use std::alloc::Global;

/// A key of a dictionary, as lines write it.
pub(crate) trait KeyWord: Key {
    /// The next key.
    fn read(alloc: Global, words: &mut Words) -> Self;

    /// Adds the key.
    fn write(&self, alloc: Global, answer: &mut Answer);
}

impl KeyWord for i32 {
    fn read(_alloc: Global, words: &mut Words) -> i32 {
        words.int()
    }

    fn write(&self, _alloc: Global, answer: &mut Answer) {
        answer.long(i64::from(*self));
    }
}

impl KeyWord for i64 {
    fn read(_alloc: Global, words: &mut Words) -> i64 {
        words.long()
    }

    fn write(&self, _alloc: Global, answer: &mut Answer) {
        answer.long(*self);
    }
}

impl KeyWord for bool {
    fn read(_alloc: Global, words: &mut Words) -> bool {
        words.is_second("0", "1")
    }

    fn write(&self, _alloc: Global, answer: &mut Answer) {
        answer.add(if *self { "1" } else { "0" });
    }
}

impl KeyWord for Text {
    fn read(alloc: Global, words: &mut Words) -> Text {
        words.json(alloc)
    }

    fn write(&self, alloc: Global, answer: &mut Answer) {
        answer.json(alloc, self.as_str());
    }
}
