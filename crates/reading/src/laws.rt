//! What holds of the reading of every text.
ghost use Rattle.reading.specs.Laws.{EitherCase, AnyComment, LineByLine};

/// Capitals and small letters read alike.
pub fn either_case()
    ensures law { EitherCase }
{}

/// What stands from a semicolon on changes nothing.
pub fn any_comment()
    ensures law { AnyComment }
{}

/// Reading is decided line by line.
pub fn line_by_line()
    ensures law { LineByLine }
{}
