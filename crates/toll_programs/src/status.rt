//! The exit statuses of the program.
ghost use Rattle.std.specs.Prelude.{◌≡◌};
ghost use Rattle.toll_programs.specs.Statuses.{exit_code};

/// How the program ends.
#[derive(Clone, Copy, PartialEq, Eq)]
pub enum Status {
    /// The program did what its words ask for: exit status 0.
    Done,
    /// A command is refused, or a record of a file is refused or bad: exit status 1.
    Refused,
    /// The program takes no such words, script or file: exit status 2.
    Usage,
    /// Memory, a file, a stream or the network failed: exit status 3.
    Failed,
}

impl Status {
    /// The number of the exit status, 0 to 3.
    pub fn code(self) -> u8
        ensures { result ≡ exit_code self }
    {
        match self {
            Status::Done => 0,
            Status::Refused => 1,
            Status::Usage => 2,
            Status::Failed => 3,
        }
    }
}
