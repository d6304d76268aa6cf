//! The limits of a trace, each in one place. All are this project's own.
ghost use Rattle.std.specs.Prelude.{◌≡◌, ◌≤◌};
ghost use Rattle.pass_trace.specs.Limits.{most_lines, most_created, last_process};

/// The greatest number of bytes of a line.
pub const LONGEST_LINE: u32 = 8_400;

/// The greatest offset or size that a line names, in bytes.
pub const GREATEST_OFFSET: u64 = 4_294_967_295;

/// How large a trace may be.
#[derive(Clone, Copy, PartialEq, Eq)]
pub enum Scale {
    /// Up to 100,000 lines, of which 8,191 make an object.
    Usual,
    /// Up to 1,000,000 lines, of which 65,535 make an object.
    Long,
}

impl Scale {
    /// The greatest number of lines of a text, those that say nothing among them.
    pub fn most_lines(self) -> u32
        ensures value { result ≡ most_lines self }
        ensures bound { result ≤ 1000000 }
    {
        match self {
            Scale::Usual => 100_000,
            Scale::Long => 1_000_000,
        }
    }

    /// The greatest number of objects that the lines of a trace make.
    pub fn most_created(self) -> u32
        ensures value { result ≡ most_created self }
        ensures bound { result ≤ 65535 }
    {
        match self {
            Scale::Usual => 8_191,
            Scale::Long => 65_535,
        }
    }

    /// The greatest number of a process; the first has 1.
    pub fn last_process(self) -> u32
        ensures value { result ≡ last_process self }
        ensures bound { result ≤ 65536 }
    {
        match self {
            Scale::Usual => 8_192,
            Scale::Long => 65_536,
        }
    }
}
