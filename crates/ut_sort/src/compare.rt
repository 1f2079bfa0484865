// The order of lines.
ghost use Rattle.std.specs.Prelude.{◌≡◌};
ghost use Rattle.rk_base.specs.Text.{text_cmp};
ghost use Rattle.ut_sort.specs.Orders.{valued, key_cmp, keys_cmp, last_cmp, line_of, found_cmp, is_same};
ghost use Rattle.ut_sort.specs.Sorts.{view};

use crate::fields::key_text;
use crate::key::Key;
use crate::line::Line;
use crate::numbers::compare_values;
use crate::sort::Sort;
use std::cmp::Ordering;

fn compare_texts(a: &[u8], b: &[u8]) -> Ordering
    ensures { result ≡ text_cmp a.now b.now }
{
    a.cmp(&b)
}

// As texts or as numbers.
fn compare_as(numeric: bool, a: &[u8], b: &[u8]) -> Ordering
    ensures { result ≡ valued numeric a.now b.now }
{
    if numeric {
        compare_values(a, b)
    } else {
        compare_texts(a, b)
    }
}

impl Key {
    // Texts of this key.
    fn compare(&self, a: &[u8], b: &[u8]) -> Ordering
        ensures { result ≡ key_cmp self.now a.now b.now }
    {
        if self.reversed {
            compare_as(self.numeric, b, a)
        } else {
            compare_as(self.numeric, a, b)
        }
    }
}

// Lines by one key after another.
fn compare_keys(delimiter: Option<u8>, keys: &[Key], a: &[u8], b: &[u8]) -> Ordering
    ensures { result ≡ keys_cmp delimiter keys.now a.now b.now }
{
    'keys: for key in keys {
        let order = key.compare(key_text(delimiter, key, a), key_text(delimiter, key, b));
        if order != Ordering::Equal {
            return order;
        }
    }
    Ordering::Equal
}

impl Sort {
    // Lines whose keys are equal.
    fn compare_last(&self, a: &[u8], b: &[u8]) -> Ordering
        ensures { result ≡ last_cmp self.now.unique self.now.reversed a.now b.now }
    {
        if self.unique {
            return Ordering::Equal;
        }
        if self.reversed {
            compare_texts(b, a)
        } else {
            compare_texts(a, b)
        }
    }

    /// A line with its first key.
    pub(crate) fn line_of<'a>(&self, text: &'a [u8]) -> Line<'a>
        ensures { view result ≡ line_of self.now text.now }
    {
        Line {
            text,
            key: key_text(self.delimiter, &self.first, text),
        }
    }

    /// Whether a line comes before another one, after it, or neither.
    pub(crate) fn compare(&self, a: &Line, b: &Line) -> Ordering
        ensures { result ≡ found_cmp self.now (view a.now) (view b.now) }
    {
        let first = self.first.compare(a.key, b.key);
        if first != Ordering::Equal {
            return first;
        }
        let order = compare_keys(self.delimiter, self.more.as_slice(), a.text, b.text);
        if order != Ordering::Equal {
            return order;
        }
        self.compare_last(a.text, b.text)
    }

    /// Whether neither of two lines comes before the other.
    pub(crate) fn is_same(&self, a: &[u8], b: &[u8]) -> bool
        ensures { result ≡ is_same self.now a.now b.now }
    {
        let a = self.line_of(a);
        let b = self.line_of(b);
        self.compare(&a, &b) == Ordering::Equal
    }
}
