// What is known of the file while its headers are read: the widths of offsets and lengths, and the
// end-of-file address.
#![tactic(auto)]

ghost use Rattle.std.specs.Prelude.{◌≡◌};
ghost use Rattle.parser.specs.States.{width_allowed, state_of, address_valid};

use records::Refusal;

// The bytes of the largest file.
pub const FILE_LIMIT: usize = 2147483648;

// The widths are in bytes. Their bounds are no invariant of the type, since the definitions speak of
// states of any widths (`state_for`).
#[derive(Clone, Copy)]
pub struct State {
    pub size_of_lengths: usize,
    pub size_of_offsets: usize,
    pub end_of_file_address: u64,
}

// A width of 2 to 8 bytes.
pub fn width_allowed(width: u64) -> bool
    ensures { result ≡ width_allowed width }
{
    if width < 2 {
        return false;
    }
    width <= 8
}

impl State {
    // Widths other than 2 to 8 are refused.
    pub fn new(
        size_of_offsets: u64,
        size_of_lengths: u64,
        end_of_file_address: u64,
    ) -> Result<State, Refusal>
        ensures { result ≡ state_of size_of_offsets size_of_lengths end_of_file_address }
    {
        if !width_allowed(size_of_offsets) {
            return Err(Refusal::Width);
        }
        if !width_allowed(size_of_lengths) {
            return Err(Refusal::Width);
        }
        Ok(State {
            size_of_lengths: size_of_lengths as usize,
            size_of_offsets: size_of_offsets as usize,
            end_of_file_address,
        })
    }

    pub fn is_address_valid(self, address: u64) -> bool
        ensures { result ≡ address_valid self address }
    {
        if address == 0 {
            return false;
        }
        address < self.end_of_file_address
    }
}
