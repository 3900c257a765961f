// How long a version's record is (01, "The run file"; 02, A6).
ghost use Rattle.std.specs.Prelude.{◌≡◌};
ghost use Rattle.header.specs.Header.{record_size};

// "records of 24 bytes"; in version 2 "26 in all".
pub const SIZE: usize = 24;

pub const SIZE_2: usize = 26;

// How many bytes a version's record has.
#[tactic(auto, unfolding(crate::specs::Header::record_size))]
pub fn size(version: u32) -> usize
    ensures { result ≡ record_size version }
{
    if version == 2 { SIZE_2 } else { SIZE }
}
