// The parts that a host lends for the keys of a command.
ghost use Rattle.std.specs.Prelude.{◌≡◌, ◌<◌};
ghost use Rattle.writer.specs.Parts.{part_in};
ghost use Rattle.viewer_calls.specs.Parts.{part_if};

// The part of a key, if the key's bit tells that it is there.
#[tactic(auto, unfolding(crate::specs::Parts::part_if))]
pub fn part(given: u16, key: u8, lent: &[u8]) -> Option<&[u8]>
    requires { key < 16 }
    ensures { part_in result ≡ part_if given key lent.now }
{
    if (given >> key) % 2 == 1 {
        Some(lent)
    } else {
        None
    }
}
