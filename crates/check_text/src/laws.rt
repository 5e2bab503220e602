//! What holds of all lines. These functions do nothing.
ghost use Rattle.check_text.specs.Laws.{SentencesArePrintable, LinesAreShort, WordIsAtFault};
ghost use Rattle.check_text.specs.Laws.{ShapesAreSaid};

/// Whatever bytes a line of the script has, its sentence is printable ASCII.
pub fn sentences_are_printable()
    ensures { SentencesArePrintable }
{}

/// A line of a script of at most 16,777,216 bytes has at most 100 bytes behind the path.
pub fn lines_are_short()
    ensures { LinesAreShort }
{}

/// Where the fault stands at a word, the word of the sentence is that one, and where it stands
/// behind the last word, there is none.
pub fn word_is_at_fault()
    ensures { WordIsAtFault }
{}

/// A field is said to be too many, empty or missing where it is, and a byte not to be printable
/// where it is not.
pub fn shapes_are_said()
    ensures { ShapesAreSaid }
{}
