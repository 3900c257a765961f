// The refusal numbers (01, "Refusal numbers, in the order tested"; 02, A3 and A6).
ghost use Rattle.std.specs.Prelude.{◌≡◌};
ghost use Rattle.rules.specs.Refusal.{refusal_number, number_of};

// Why a sample, a state, a file, a buffer or a text is refused.
#[derive(Clone, Copy, Debug, PartialEq, Eq)]
pub enum Refusal {
    // a file's header and length
    Short = 1,
    Mark = 2,
    Version = 3,
    Zero = 4,
    Count = 5,
    Length = 6,
    // the lent buffer's length
    Buffer = 7,
    State = 8,
    // a field of a sample, or of a record
    Along = 11,
    Vertical = 12,
    Airspeed = 13,
    Height = 14,
    Pitch = 15,
    Stall = 16,
    Climb = 17,
    Vs1 = 18,
    Mode = 19,
    Deselect = 20,
    // the frames that a sample would stand for
    Frames = 21,
    // a text's header line, and its other lines
    HeaderLine = 23,
    Line = 24,
}

impl From<Refusal> for u16 {
    ghost from_gives = { λ refusal number. number ≡ refusal_number refusal };

    fn from(refusal: Refusal) -> u16 {
        refusal as u16
    }
}

// 0 where nothing is refused, else the number.
pub fn number_of(checked: Result<(), Refusal>) -> u16
    ensures { result ≡ number_of checked }
{
    match checked {
        Ok(()) => 0,
        Err(refusal) => u16::from(refusal),
    }
}
