// Pieces of texts.
ghost use Rattle.std.specs.Prelude.{◌≡◌, take, drop};
ghost use Rattle.ut_sed.specs.Substituting.{piece};

/// What stands from a place on.
pub(crate) fn behind(text: &[u8], at: usize) -> &[u8]
    ensures { result.now ≡ drop at text.now }
{
    if at <= text.len() {
        text.split_at(at).1
    } else {
        &[]
    }
}

fn front(text: &[u8], size: usize) -> &[u8]
    ensures { result.now ≡ take size text.now }
{
    if size <= text.len() {
        text.split_at(size).0
    } else {
        text
    }
}

/// What stands from one place up to another.
pub(crate) fn piece(text: &[u8], from: usize, to: usize) -> &[u8]
    ensures { result.now ≡ piece text.now from to }
{
    front(behind(text, from), to.saturating_sub(from))
}
