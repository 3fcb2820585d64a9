ghost use Rattle.std.specs.Prelude.{◌≡◌, [], IfOk, string_bytes};

use crate::{Row, Value};
use rt_lists::Items;
use std::alloc::{AllocError, Global};
use std::mem;

/// The memory of rows that are no longer needed, for the next ones.
#[derive(Drop)]
pub(crate) struct Spare {
    values: Items<Value>,
    texts: Vec<String>,
}

impl Spare {
    /// No memory is kept yet.
    pub(crate) fn new(alloc: Global) -> Spare {
        Spare {
            values: Items::new(alloc),
            texts: Vec::new(alloc),
        }
    }

    /// A list without a value, in kept memory where there is some.
    pub(crate) fn values(&mut self, alloc: Global) -> Items<Value>
        ensures { result ≡ [] }
    {
        let mut values = mem::replace(&mut self.values, Items::new(alloc));
        values.clear();
        values
    }

    /// A copy of a text, in kept memory where there is some.
    pub(crate) fn text(&mut self, alloc: Global, text: &str) -> Result<String, AllocError>
        ensures { IfOk result (λ copy. string_bytes copy ≡ text.now) }
    {
        match self.texts.pop() {
            Some(mut copy) => {
                copy.clear();
                copy.push_str(text)?;
                Ok(copy)
            }
            None => String::from_str(alloc, text),
        }
    }

    /// Keeps the memory of a row, and of no more texts than it has values.
    pub(crate) fn keep(&mut self, row: Row) {
        let mut values = row.values;
        let width = values.len();
        for _value in 0..width {
            if let Some(Value::Text(text)) = values.pop() {
                self.keep_text(text.into_string(), width);
            }
        }
        self.values = values;
    }

    fn keep_text(&mut self, text: String, most: usize) {
        if self.texts.len() < most && self.texts.reserve(1).is_ok() {
            self.texts.push_reserved(text);
        }
    }
}
