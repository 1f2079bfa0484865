// Modes.
ghost use Rattle.std.specs.Prelude.{◌≡◌, ◌+◌, ◌*◌, ◌%◌, ◌<◌, option_copied};
ghost use Rattle.ut_args.specs.Forms.{is_octal, is_mode};
ghost use Rattle.std.specs.List.{list_all};
ghost use Rattle.ut_files.specs.Modes.{bits, octal, mode_by, mode_given};

use rk_base::Bytes;
use ut_args::Given;

/// The bits of a mode that a call may have.
pub fn bits(mode: u16) -> u16
    ensures { result ≡ bits mode }
{
    mode % 512
}

fn is_octal(b: u8) -> bool
    ensures { result ≡ is_octal b }
{
    b >= b'0' && b <= b'7'
}

fn all_octal(text: &[u8]) -> bool
    ensures { result ≡ list_all is_octal text.now }
{
    text.iter().all(|b| is_octal(*b))
}

/// Whether it is a mode: one to four octal digits, at most 0777.
pub(crate) fn is_mode(text: &[u8]) -> bool
    ensures { result ≡ is_mode text.now }
{
    match text {
        [] => false,
        [first, rest @ ..] => {
            all_octal(text) && (rest.len() <= 2 || *first == b'0' && rest.len() == 3)
        }
    }
}

fn add_digit(n: u16, b: u8) -> u16
    requires { n < 512 }
    ensures digit { result ≡ (n * 8 + b % 8) % 512 }
    ensures small { result < 512 }
{
    (n * 8 + (b % 8) as u16) % 512
}

/// The number of a text of octal digits, of which the last nine bits count.
pub(crate) fn octal(text: &[u8]) -> u16
    ensures { result ≡ octal text.now }
{
    let mut n = 0;
    'digits: for b in text {
        n = add_digit(n, *b);
    }
    n
}

fn mode_by(mode: u16, letter: u8, argument: Option<&Bytes>) -> u16
    ensures { result ≡ mode_by mode letter (option_copied argument.entry) }
{
    match argument {
        None => mode,
        Some(text) => {
            if letter == b'm' {
                octal(text.as_slice())
            } else {
                mode
            }
        }
    }
}

/// The mode that the last `-m` gives, or else this one.
pub(crate) fn mode_given(mode: u16, given: &[Given]) -> u16
    ensures { result ≡ mode_given mode given.now }
{
    let mut mode = mode;
    'given: for one in given {
        mode = mode_by(mode, one.letter, one.argument.as_ref());
    }
    mode
}
