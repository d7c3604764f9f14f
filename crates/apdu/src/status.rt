// Our own answers to a message that is not handed on.
ghost use Rattle.std.specs.Prelude.{◌≡◌, [], ◌∷◌};
ghost use Rattle.apdu.specs.Apdu.{status_bytes};

// Why a message is not handed on.
#[derive(Clone, Copy, Debug, PartialEq, Eq)]
pub enum Status {
    WrongLength,
    // a class that we do not have
    UnknownClass,
    // an instruction that we do not have
    UnknownInstruction,
}

impl Status {
    // The two bytes that stand for it in ISO 7816, in their order.
    pub fn bytes(self) -> [u8; 2]
        ensures { result ≡ (status_bytes self).0 ∷ (status_bytes self).1 ∷ [] }
    {
        match self {
            Status::WrongLength => [0x67, 0x00],
            Status::UnknownClass => [0x6E, 0x00],
            Status::UnknownInstruction => [0x6D, 0x00],
        }
    }
}
