//! Laws about the definition of lines.
ghost use Rattle.epx_lines.specs.Lines.{LinesMakeUpTheBytes, LinesAreOne};

/// The lines of a log contain no line feed. With a line feed after each, they make up the log.
pub fn lines_make_up_the_bytes()
    ensures { LinesMakeUpTheBytes }
{}

/// No other list of lines has these two properties.
pub fn lines_are_one()
    ensures { LinesAreOne }
{}
