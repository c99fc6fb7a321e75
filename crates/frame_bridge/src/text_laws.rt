//! Laws of all texts of a bridge. Each function does nothing: its contract is the law.
ghost use Rattle.line_format.specs.Texts.{SpelledIsRead, CutIsNoEnd, BytesAfterEndAreALine, FaultIsFirst};
ghost use Rattle.frame_bridge.specs.Spelling.{IsSpelling, line_count};
ghost use Rattle.frame_bridge.specs.Judge.{machine, sense};

/// Law: the spelling of a run is read as that run, so no text spells two.
pub fn spelled_is_read()
    ensures { SpelledIsRead machine sense IsSpelling }
{}

/// Law: a text that is cut at any byte is refused as one without an end.
// claim with bytes_after_end_are_bad_line: A text that is cut anywhere has no end, and bytes after
//    a text of L lines are `BadLine(L + 1)`.
pub fn cut_is_no_end()
    ensures { CutIsNoEnd machine sense IsSpelling }
{}

/// Law: bytes after a text are its next line, with a newline or without, and that line is faulty.
pub fn bytes_after_end_are_bad_line()
    ensures { BytesAfterEndAreALine machine sense IsSpelling line_count }
{}

/// Law: the line that a fault names is faulty, and no line before it is.
pub fn fault_is_first()
    ensures { FaultIsFirst machine sense }
{}
