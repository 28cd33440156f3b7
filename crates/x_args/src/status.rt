//! The status that a program ends with.
ghost use Rattle.std.specs.Prelude.{◌≡◌, max};
ghost use Rattle.x_args.specs.Status.{exit_code, worse};

/// How a run of a program ended.
#[derive(Clone, Copy, Debug, PartialEq, Eq)]
pub enum Status {
    /// All was done.
    Done = 0,
    /// The text has faults, or a line of the script was refused.
    Faulty = 1,
    /// The run could not be carried out.
    Failed = 2,
}

impl Status {
    /// The exit status of the program.
    pub fn code(self) -> u8
        ensures { result ≡ exit_code self }
    {
        self as u8
    }

    /// The worse of two statuses: that of a run of two parts.
    pub fn worse(self, other: Status) -> Status
        ensures worse { result ≡ worse self other }
        ensures code { exit_code result ≡ max (exit_code self) (exit_code other) }
    {
        match (self, other) {
            (Status::Failed, _) | (_, Status::Failed) => Status::Failed,
            (Status::Faulty, _) | (_, Status::Faulty) => Status::Faulty,
            (Status::Done, Status::Done) => Status::Done,
        }
    }
}
