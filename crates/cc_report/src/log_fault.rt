//! The faults of a log of a build and of its image, with the numbers and names of reports.

ghost use Rattle.std.specs.Prelude.{◌≡◌, ◌≤◌, length};
ghost use Rattle.cc_report.specs.LogFault.{name_of, number_of};

/// Why a log does not show that an image is that of its source.
#[derive(Clone, Copy)]
pub enum LogFault {
    /// A line is none of a log.
    BadLine,
    /// A line names another function than the source has there.
    BadFunction,
    /// A function has another number of values.
    BadCount,
    /// A step cannot be done.
    BadStep,
    /// The image is another one.
    OtherImage,
    /// The log has more than 2,147,483,648 bytes.
    LongLog,
}

impl LogFault {
    /// The number in reports.
    pub fn number(self) -> u32
        ensures { result ≡ number_of self }
    {
        match self {
            LogFault::BadLine => 61,
            LogFault::BadFunction => 62,
            LogFault::BadCount => 63,
            LogFault::BadStep => 64,
            LogFault::OtherImage => 65,
            LogFault::LongLog => 66,
        }
    }

    /// The name in reports, at most 14 bytes.
    pub fn name(self) -> &'static str
        ensures name { result.now ≡ name_of self }
        ensures short { length result.now ≤ 14 }
    {
        match self {
            LogFault::BadLine => "BadLine",
            LogFault::BadFunction => "BadFunction",
            LogFault::BadCount => "BadCount",
            LogFault::BadStep => "BadStep",
            LogFault::OtherImage => "OtherImage",
            LogFault::LongLog => "LongLog",
        }
    }
}
