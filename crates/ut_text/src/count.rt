// Counts of a text.
ghost use Rattle.std.specs.Prelude.{◌≡◌, ◌+◌, ◌≤◌, ◌==◌, ◌||◌, length, IfSome};
ghost use Rattle.ut_text.specs.Counts.{lines_in, words_in, words_from, count, sum, is_space};

/// Lines, words and bytes.
#[derive(Clone, Copy, Debug, Drop)]
pub struct Count {
    pub lines: u64,
    pub words: u64,
    pub bytes: u64,
}

fn is_space(b: u8) -> bool
    ensures { result ≡ is_space b }
{
    b == b' ' || b >= 9 && b <= 13
}

fn lines_in(text: &[u8]) -> usize
    ensures { result ≡ lines_in text.now }
{
    text.iter().filter(|b| **b == b'\n').count()
}

fn words_in(text: &[u8]) -> usize
    ensures { result ≡ words_in text.now }
{
    let mut words = 0;
    let mut inside = false;
    'bytes: for b in text {
        if is_space(*b) {
            inside = false;
        } else if !inside {
            inside = true;
            words += 1;
        }
    }
    words
}

impl Count {
    pub(crate) fn none() -> Count
        ensures { result ≡ record { lines = 0; words = 0; bytes = 0 } }
    {
        Count {
            lines: 0,
            words: 0,
            bytes: 0,
        }
    }

    pub(crate) fn of(text: &[u8]) -> Count
        ensures { result ≡ count text.now }
    {
        Count {
            lines: lines_in(text) as u64,
            words: words_in(text) as u64,
            bytes: text.len() as u64,
        }
    }

    // So many bytes that the numbers end are more than memory can hold.
    pub(crate) fn plus(self, other: Count) -> Option<Count>
        ensures { IfSome result (λ c. c ≡ sum self other) }
    {
        let lines = self.lines.checked_add(other.lines)?;
        let words = self.words.checked_add(other.words)?;
        let bytes = self.bytes.checked_add(other.bytes)?;
        Some(Count {
            lines,
            words,
            bytes,
        })
    }
}
