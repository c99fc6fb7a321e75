//! Laws of all texts of scenarios. Each function does nothing: its contract is the law.
ghost use Rattle.line_format.specs.Texts.{IsReadAgain, CutIsNoEnd, BytesAfterEndAreALine, FaultIsFirst};
ghost use Rattle.scenario_text.specs.Spelling.{IsSpelling, line_count, spelling, world_of};
ghost use Rattle.scenario_text.specs.Judge.{machine, sense};

/// Law: `parse` reads what `print` writes of a scenario as that scenario.
// claim: What is printed is read as the same scenario.
pub fn printed_is_read_again()
    ensures { IsReadAgain machine sense world_of spelling }
{}

/// Law: a text that is cut at any byte is refused as one without an end.
// claim with bytes_after_end_are_bad_line: A text that is cut anywhere is `NoEnd`, and bytes after
//    a text of L lines are `BadLine(L + 1)`.
pub fn cut_is_no_end()
    ensures { CutIsNoEnd machine sense IsSpelling }
{}

/// Law: bytes after a text are its next line, with a newline or without, and that line is faulty.
pub fn bytes_after_end_are_bad_line()
    ensures { BytesAfterEndAreALine machine sense IsSpelling line_count }
{}

/// Law: the line that a fault names is faulty, and no line before it is.
pub fn fault_is_first()
    ensures { FaultIsFirst machine sense }
{}
