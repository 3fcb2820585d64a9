ghost use Rattle.rt_grammar.specs.Laws.{ReadIsDerived, FaultsAreFirst, DeepIsRefused};

/// Tokens are read as a query exactly where the grammar derives it, nesting at most 64 deep.
pub fn what_is_read_is_derived()
    ensures { ReadIsDerived }
{}

/// Where tokens aren't read, the byte of the refusal by syntax is that of the first token that no query,
/// however deep it nests, has in its place, or the text's length.
pub fn faults_are_first()
    ensures { FaultsAreFirst }
{}

/// Tokens are refused for their depth exactly where a query begins with the first of them, but none that
/// nests at most 64 deep, whatever follows them.
pub fn deep_is_refused()
    ensures { DeepIsRefused }
{}
