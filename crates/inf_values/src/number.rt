ghost use Rattle.std.specs.Prelude.{◌≡◌, ◌≤◌, ◌<◌, ◌^◌, IfSome};
ghost use Rattle.inf_values.specs.Number.{number_at_most, digits_from};

/// The number of decimal digits without a leading zero, where it isn't above `most`.
pub(crate) fn number_at_most(most: u32, text: &[u8]) -> Option<u32>
    ensures value { result ≡ number_at_most most text.now }
    ensures most { IfSome result (λ number. number ≤ most) }
{
    match text {
        [] | [b'0', _, ..] => None,
        _ => digits(most, text),
    }
}

#[tactic(auto, unfolding(crate::specs::Number::digits_from))]
fn digits(most: u32, text: &[u8]) -> Option<u32>
    ensures value { result ≡ digits_from most 0 text.now }
    ensures most { IfSome result (λ number. number ≤ most) }
{
    let mut number: u32 = 0;
    for byte in text {
        if !byte.is_ascii_digit() {
            return None;
        }
        let longer = 10 * u64::from(number) + u64::from(byte - b'0');
        if longer > u64::from(most) {
            return None;
        }
        number = longer as u32;
    }
    Some(number)
}
