// Options of utilities, and the forms of their arguments.
ghost use Rattle.std.specs.Prelude.{◌≡◌, ◌≤◌, ◌==◌, length, count_by, find};
ghost use Rattle.std.specs.List.{list_all, before_first, after_first, position_or_len, slice_split};
ghost use Rattle.ut_args.specs.Forms.{is_digit, is_octal, is_number, is_end, is_range, is_ranges, is_mode, unsigned, is_signed, is_field, are_fields, is_order, is_key, is_form, is_of};

/// What an option takes.
#[derive(Clone, Copy, Debug, Drop)]
pub enum Form {
    /// Nothing.
    Alone,
    /// Any argument.
    Text,
    /// One to ten digits.
    Number,
    /// Ranges with commas between them: `N`, `N-M`, `N-` or `-M`, where `N` and `M` are numbers.
    Ranges,
    /// One byte.
    Byte,
    /// One to four octal digits, at most 0777.
    Mode,
    /// A number, before which a `+` or a `-` may stand.
    Signed,
    /// A key of `sort`: a number of a field, with a comma and the number of its last field where that is given, and then
    /// letters `n` and `r`. No number is 0.
    Key,
}

/// An option of a utility.
#[derive(Clone, Copy, Debug, Drop)]
pub struct Opt {
    pub letter: u8,
    pub form: Form,
}

fn is_digit(b: u8) -> bool
    ensures { result ≡ is_digit b }
{
    b >= b'0' && b <= b'9'
}

fn is_octal(b: u8) -> bool
    ensures { result ≡ is_octal b }
{
    b >= b'0' && b <= b'7'
}

fn all_digits(text: &[u8]) -> bool
    ensures { result ≡ list_all is_digit text.now }
{
    text.iter().all(|b| is_digit(*b))
}

fn all_octal(text: &[u8]) -> bool
    ensures { result ≡ list_all is_octal text.now }
{
    text.iter().all(|b| is_octal(*b))
}

fn is_number(text: &[u8]) -> bool
    ensures { result ≡ is_number text.now }
{
    !text.is_empty() && text.len() <= 10 && all_digits(text)
}

// Where a byte stands first, or else the length.
fn place(text: &[u8], at: u8) -> usize
    ensures place { result ≡ position_or_len (λ b. b == at) text.now }
    ensures within { result ≤ length text.now }
{
    for (i, b) in text.iter().enumerate() {
        if *b == at {
            return i;
        }
    }
    text.len()
}

// What stands before the first of a byte.
fn before(text: &[u8], at: u8) -> &[u8]
    ensures { result.now ≡ before_first (λ b. b == at) text.now }
{
    text.split_at(place(text, at)).0
}

fn after(text: &[u8], at: u8) -> &[u8]
    ensures { result.now ≡ after_first (λ b. b == at) text.now }
{
    match text.split_at(place(text, at)).1 {
        [] => &[],
        [_, after @ ..] => after,
    }
}

fn is_end(text: &[u8]) -> bool
    ensures { result ≡ is_end text.now }
{
    text.is_empty() || is_number(text)
}

fn is_range(text: &[u8]) -> bool
    ensures { result ≡ is_range text.now }
{
    let from = before(text, b'-');
    let to = after(text, b'-');
    let is_open = from.is_empty() && to.is_empty();
    !is_open && is_end(from) && is_end(to)
}

fn is_ranges(text: &[u8]) -> bool
    ensures { result ≡ is_ranges text.now }
{
    text.split(|b| *b == b',').all(|range| is_range(range))
}

fn is_mode(text: &[u8]) -> bool
    ensures { result ≡ is_mode text.now }
{
    match text {
        [] => false,
        [first, rest @ ..] => {
            all_octal(text) && (rest.len() <= 2 || *first == b'0' && rest.len() == 3)
        }
    }
}

/// What stands after a sign, where there is one.
pub fn unsigned(text: &[u8]) -> &[u8]
    ensures { result.now ≡ unsigned text.now }
{
    match text {
        [] => text,
        [b, rest @ ..] => { if *b == b'+' || *b == b'-' { rest } else { text } }
    }
}

fn is_signed(text: &[u8]) -> bool
    ensures { result ≡ is_signed text.now }
{
    is_number(unsigned(text))
}

fn are_zeros(text: &[u8]) -> bool
    ensures { result ≡ list_all (λ b. b == 48) text.now }
{
    text.iter().all(|b| *b == b'0')
}

fn is_field(text: &[u8]) -> bool
    ensures { result ≡ is_field text.now }
{
    is_number(text) && !are_zeros(text)
}

fn is_order(b: u8) -> bool
    ensures { result ≡ is_order b }
{
    b == b'n' || b == b'r'
}

// Where a letter of a key stands first, or else the length.
fn place_of_order(text: &[u8]) -> usize
    ensures place { result ≡ position_or_len is_order text.now }
    ensures within { result ≤ length text.now }
{
    for (i, b) in text.iter().enumerate() {
        if is_order(*b) {
            return i;
        }
    }
    text.len()
}

fn commas(text: &[u8]) -> usize
    ensures { result ≡ count_by (λ b. b == 44) text.now }
{
    text.iter().filter(|b| **b == b',').count()
}

fn all_fields(text: &[u8]) -> bool
    ensures { result ≡ list_all is_field (slice_split (λ b. b == 44) text.now) }
{
    text.split(|b| *b == b',').all(|field| is_field(field))
}

fn are_fields(text: &[u8]) -> bool
    ensures { result ≡ are_fields text.now }
{
    commas(text) <= 1 && all_fields(text)
}

fn are_orders(text: &[u8]) -> bool
    ensures { result ≡ list_all is_order text.now }
{
    text.iter().all(|b| is_order(*b))
}

fn is_key(text: &[u8]) -> bool
    ensures { result ≡ is_key text.now }
{
    let (fields, letters) = text.split_at(place_of_order(text));
    are_fields(fields) && are_orders(letters)
}

/// Whether an argument has a form.
pub(crate) fn is_form(form: Form, text: &[u8]) -> bool
    ensures { result ≡ is_form form text.now }
{
    match form {
        Form::Alone => false,
        Form::Text => true,
        Form::Number => is_number(text),
        Form::Ranges => is_ranges(text),
        Form::Byte => text.len() == 1,
        Form::Mode => is_mode(text),
        Form::Signed => is_signed(text),
        Form::Key => is_key(text),
    }
}

/// The option with this letter.
pub(crate) fn find_option(table: &[Opt], letter: u8) -> Option<Opt>
    ensures { result ≡ find (is_of letter) table.now }
{
    table.iter().copied().find(|o| o.letter == letter)
}
