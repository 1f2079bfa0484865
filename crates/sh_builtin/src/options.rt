// A builtin without options.
ghost use Rattle.std.specs.Prelude.{◌≡◌};
ghost use Rattle.sh_builtin.specs.Options.{operands_of};

use rk_base::Bytes;

/// The operands among the words behind the name: a first `--` ends the options, of which there are none.
pub(crate) fn operands_of(words: &[Bytes]) -> &[Bytes]
    ensures { result.now ≡ operands_of words.now }
{
    match words {
        [] => words,
        [first, rest @ ..] => {
            if first.as_slice() == b"--".as_slice() {
                rest
            } else {
                words
            }
        }
    }
}
