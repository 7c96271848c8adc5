// How a run ends.

/// The answers of `run`. Their exit statuses are 0 to 6 in this order.
#[derive(Clone, Copy, PartialEq, Eq)]
pub enum Status {
    NoAlarm,
    Alarms,
    Refused,
    Usage,
    ReadFault,
    WriteFault,
    NoMemory,
}

impl Status {
    ghost use Rattle.std.specs.Prelude.{◌≡◌};
    ghost use Rattle.headline.specs.Status.{code_of};

    /// The exit status.
    pub fn code(self) -> u8
        ensures { result ≡ code_of self }
    {
        match self {
            Status::NoAlarm => 0,
            Status::Alarms => 1,
            Status::Refused => 2,
            Status::Usage => 3,
            Status::ReadFault => 4,
            Status::WriteFault => 5,
            Status::NoMemory => 6,
        }
    }
}
