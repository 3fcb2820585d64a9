//! Rows as the bits of words, 64 a word, the first at the lowest bit.
ghost use Rattle.std.specs.Prelude.{◌≡◌, ℕ, ◌+◌, ◌*◌, ◌/◌, ◌^◌, ◌<◌, ◌≤◌, length, not, EachIndex, IfSome, IfNone, slice_index, bit_and, bit_or};
ghost use Rattle.rt_postings.specs.Words.{marked, NoneMarkedFrom, IsMarkedNext};

/// The rows of a word.
pub const WORD: u32 = u64::BITS;

/// Keeps the bits that others have too.
pub fn and_words(words: &mut [u64], others: &[u64])
    requires { length words.old ≡ length others.now }
    ensures { EachIndex words.new (λ k. slice_index words.new k ≡ bit_and (slice_index words.old k) (slice_index others.now k)) }
{
    for (k, word) in words.iter_mut().enumerate() {
        *word &= others[k];
    }
}

/// Sets the bits that others have.
pub fn or_words(words: &mut [u64], others: &[u64])
    requires { length words.old ≡ length others.now }
    ensures { EachIndex words.new (λ k. slice_index words.new k ≡ bit_or (slice_index words.old k) (slice_index others.now k)) }
{
    for (k, word) in words.iter_mut().enumerate() {
        *word |= others[k];
    }
}

/// Turns the bits of the first `rows` rows round, and clears the others.
pub fn not_words(words: &mut [u64], rows: u32)
    requires { length words.old ≡ (rows + 63) / 64 }
    ensures within { (row : ℕ) → row < rows → marked words.new row ≡ not (marked words.old row) }
    ensures beyond { NoneMarkedFrom words.new rows }
{
    for word in words.iter_mut() {
        *word = !*word;
    }
    let filled = rows % WORD;
    if filled != 0 {
        let last = (rows / WORD) as usize;
        words[last] &= (1 << filled) - 1;
    }
}

/// The row of the first bit that is set in the words from `from` on.
pub fn first_marked(words: &[u64], from: usize) -> Option<u32>
    requires start { from ≤ length words.now }
    requires few { length words.now ≤ 2 ^ 26 }
    ensures found { IfSome result (λ row. IsMarkedNext words.now (64 * from) row) }
    ensures none { IfNone result (NoneMarkedFrom words.now (64 * from)) }
{
    for k in from..words.len() {
        let word = words[k];
        if word != 0 {
            return Some(k as u32 * WORD + word.trailing_zeros());
        }
    }
    None
}
