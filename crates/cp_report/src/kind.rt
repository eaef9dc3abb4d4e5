// What can be wrong at the front of bytes that should begin with a report.
ghost use Rattle.std.specs.Prelude.{◌≡◌};
ghost use Rattle.cp_report.specs.Kinds.{report_number};

/// What is wrong at the line where bytes cease to be a report.
#[derive(Clone, Copy, Debug, PartialEq, Eq)]
pub enum ReportKind {
    /// The first line is not the heading.
    NoHeading,
    /// The second line is neither `yes` nor `no`.
    NoVerdict,
    /// A whole line cannot follow the lines before it.
    WrongLine,
    /// A line is missing, or lacks its line feed.
    NoLine,
}

impl ReportKind {
    /// The number of the kind in the format: 1 to 4, in the order of the variants.
    pub fn number(&self) -> u8
        ensures { result ≡ report_number self.now }
    {
        match self {
            ReportKind::NoHeading => 1,
            ReportKind::NoVerdict => 2,
            ReportKind::WrongLine => 3,
            ReportKind::NoLine => 4,
        }
    }
}
