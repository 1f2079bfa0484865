// Parts of what is read, each with the bytes behind it; `None` where the bytes don't begin with one.
ghost use Rattle.std.specs.Int.{w64};
ghost use Rattle.tr_parts.specs.Reading.{number_at, byte_at, count_at, string_at};
ghost use Rattle.rk_seal.specs.Reading.{Gives};

/// A number of eight bytes, the greatest first.
#[tactic(auto, unfolding(tr_parts::specs::Reading::number_at))]
pub(crate) fn number_of(bytes: &[u8]) -> Option<(u64, &[u8])>
    ensures { Gives (λ x. (x.0, x.1.now)) result (number_at w64 bytes.now) }
{
    if bytes.len() < 8 {
        return None;
    }
    let (front, rest) = bytes.split_at(8);
    let number = u64::from_be_bytes([
        front[0], front[1], front[2], front[3], front[4], front[5], front[6], front[7],
    ]);
    Some((number, rest))
}

#[tactic(auto, unfolding(tr_parts::specs::Reading::byte_at))]
pub(crate) fn byte_of(bytes: &[u8]) -> Option<(u8, &[u8])>
    ensures { Gives (λ x. (x.0, x.1.now)) result (byte_at bytes.now) }
{
    match bytes {
        [] => None,
        [b, rest @ ..] => Some((*b, rest)),
    }
}

/// How many there are: no more than the bytes after it, so that no memory is asked for more.
#[tactic(auto, unfolding(tr_parts::specs::Reading::count_at))]
pub(crate) fn count_of(bytes: &[u8]) -> Option<(u64, &[u8])>
    ensures { Gives (λ x. (x.0, x.1.now)) result (count_at bytes.now) }
{
    let (n, rest) = number_of(bytes)?;
    if (rest.len() as u64) < n {
        return None;
    }
    Some((n, rest))
}

/// A text behind its length, where it stands.
#[tactic(auto, unfolding(tr_parts::specs::Reading::string_at))]
pub(crate) fn string_of(bytes: &[u8]) -> Option<(&[u8], &[u8])>
    ensures { Gives (λ x. (x.0.now, x.1.now)) result (string_at bytes.now) }
{
    let (len, rest) = number_of(bytes)?;
    let len = len as usize;
    if rest.len() < len {
        return None;
    }
    let (text, rest) = rest.split_at(len);
    Some((text, rest))
}
