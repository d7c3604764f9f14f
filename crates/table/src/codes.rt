// The codes of an error packet.
ghost use Rattle.std.specs.Prelude.{◌≡◌};
ghost use Rattle.table.specs.Codes.{code_number};

// Why a packet draws an error.
#[derive(Clone, Copy, Debug, PartialEq, Eq)]
pub enum ErrorCode {
    InvalidCommand,
    InvalidLength,
    InvalidNumber,
    TimeOut,
    Busy,
    InvalidChannel,
    Other,
}

impl ErrorCode {
    // The byte that the packet carries.
    pub fn number(self) -> u8
        ensures { result ≡ code_number self }
    {
        match self {
            ErrorCode::InvalidCommand => 0x01,
            ErrorCode::InvalidLength => 0x03,
            ErrorCode::InvalidNumber => 0x04,
            ErrorCode::TimeOut => 0x05,
            ErrorCode::Busy => 0x06,
            ErrorCode::InvalidChannel => 0x0B,
            ErrorCode::Other => 0x7F,
        }
    }
}
