ghost use Rattle.std.specs.Prelude.{◌≡◌, ◌↔◌, IsTrue};
ghost use Rattle.unit_model.specs.Profile.{IsProfile, is_profile_byte};

const LONGEST_PROFILE: usize = 64;

/// Whether these bytes may name a profile: 1 to 64 letters, digits, `_` and `-`.
pub fn is_profile(name: &[u8]) -> bool
    ensures { IsTrue result ↔ IsProfile name.now }
{
    !name.is_empty()
        && name.len() <= LONGEST_PROFILE
        && name.iter().all(|byte| is_profile_byte(*byte))
}

fn is_profile_byte(byte: u8) -> bool
    ensures { result ≡ is_profile_byte byte }
{
    byte.is_ascii_alphanumeric() || byte == b'_' || byte == b'-'
}
