// Numbers of eight bytes, the lowest first, in a part of bytes.
ghost use Rattle.std.specs.Prelude.{◌≡◌, ◌+◌, ◌<◌, ◌≤◌, length, drop, MatchOption};
ghost use Rattle.wire.specs.Reading.{number_in};

// The part from `at` on.
pub(crate) fn rest(bytes: &[u8], at: usize) -> &[u8]
    requires { at ≤ length bytes.now }
    ensures { (result.now ≡ drop at bytes.now) × (length result.now + at ≡ length bytes.now) }
{
    bytes.split_at(at).1
}

// The number that the bytes begin with.
#[tactic(auto, unfolding(crate::specs::Reading::number_in))]
pub fn number(bytes: &[u8]) -> Option<u64>
    ensures { MatchOption result (length bytes.now < 8) (λ n. (8 ≤ length bytes.now) × (n ≡ number_in bytes.now)) }
{
    let eight = bytes.first_chunk()?;
    Some(u64::from_le_bytes(*eight))
}
