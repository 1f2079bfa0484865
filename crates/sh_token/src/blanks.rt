// What is passed over in front of a token.
ghost use Rattle.std.specs.Prelude.{◌≡◌, ◌≤◌, ◌+◌, false, length, drop};
ghost use Rattle.sh_token.specs.Blanks.{joins as joins_lem, blanks as blanks_lem, is_join as join_lem, pick as pick_lem, skip_of as skip_lem};

use crate::bytes::is_blank;

/// What stands in front of a token: nothing that is passed over, a blank or a byte of a comment, a comment's sign, or a joined line.
#[derive(Clone, Copy)]
pub enum Skip {
    Stop,
    One,
    Hash,
    Join,
}

fn is_join(text: &[u8]) -> bool
    ensures { result ≡ join_lem text.now }
{
    match text {
        [] => false,
        [_] => false,
        [c, d, ..] => *c == 92 && *d == 10,
    }
}

fn pick(blank: bool, hash: bool, join: bool) -> Skip
    ensures { result ≡ pick_lem blank hash join }
{
    if blank {
        Skip::One
    } else if hash {
        Skip::Hash
    } else if join {
        Skip::Join
    } else {
        Skip::Stop
    }
}

fn skip_of(comment: bool, text: &[u8]) -> Skip
    ensures { result ≡ skip_lem comment text.now }
{
    match text {
        [] => Skip::Stop,
        [c, ..] => {
            if comment {
                if *c == 10 || *c == 0 {
                    Skip::Stop
                } else {
                    Skip::One
                }
            } else {
                pick(is_blank(*c), *c == 35, is_join(text))
            }
        }
    }
}

/// What is left of a text past the blanks, joined lines and comment that stand in front.
pub fn past_blanks(text: &[u8]) -> &[u8]
    ensures rest { result.now ≡ drop (blanks_lem false text.now) text.now }
    ensures count { blanks_lem false text.now + length result.now ≡ length text.now }
{
    let mut rest = text;
    let mut comment = false;
    'skips: loop {
        match skip_of(comment, rest) {
            Skip::Stop => return rest,
            Skip::One => rest = rest.split_at(1).1,
            Skip::Hash => {
                rest = rest.split_at(1).1;
                comment = true;
            }
            Skip::Join => rest = rest.split_at(2).1,
        }
    }
}

#[tactic(auto, using(crate::proofs::Runs::step_joined))]
/// What is left of a text past the joined lines that stand in front.
pub(crate) fn past_joins(text: &[u8]) -> &[u8]
    ensures rest { result.now ≡ drop (joins_lem text.now) text.now }
    ensures count { joins_lem text.now + length result.now ≡ length text.now }
    ensures none { join_lem result.now ≡ false }
{
    let mut rest = text;
    'joins: while is_join(rest) {
        rest = rest.split_at(2).1;
    }
    rest
}

/// How many bytes of a text are blanks, joined lines and a comment in front.
pub fn blanks(text: &[u8]) -> usize
    ensures count { result ≡ blanks_lem false text.now }
    ensures within { result ≤ length text.now }
{
    text.len() - past_blanks(text).len()
}

/// How many bytes of a text are joined lines in front.
pub fn joins(text: &[u8]) -> usize
    ensures count { result ≡ joins_lem text.now }
    ensures within { result ≤ length text.now }
{
    text.len() - past_joins(text).len()
}
