// Why a call is turned away.
ghost use Rattle.std.specs.Prelude.{◌≡◌};
ghost use Rattle.wire.specs.Refusal.{refusal_number};

// The reasons, in the order of their numbers.
#[derive(Clone, Copy, Debug, PartialEq, Eq)]
pub enum Refusal {
    // the packet has not 64 bytes
    PacketLength,
    // the buffer for a packet has no room for one
    ReplyRoom,
    // the message buffer has no room for the longest message
    MessageRoom,
    // the key is in a phase in which there is no such call
    WrongPhase,
    // the ticket is not the last one
    WrongTicket,
    // a delivery has not as many bytes as an answer can have
    WrongLength,
    // no value that can be: a state out of order, a command that no header can name
    Invalid,
    // the request or the command is too long
    TooLong,
}

impl Refusal {
    // The number that a host is told.
    pub fn number(self) -> u8
        ensures { result ≡ refusal_number self }
    {
        match self {
            Refusal::PacketLength => 1,
            Refusal::ReplyRoom => 2,
            Refusal::MessageRoom => 3,
            Refusal::WrongPhase => 4,
            Refusal::WrongTicket => 5,
            Refusal::WrongLength => 6,
            Refusal::Invalid => 7,
            Refusal::TooLong => 8,
        }
    }
}
