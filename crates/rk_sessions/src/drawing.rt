// What is drawn for made sessions: the numbers that follow from a seed, sources, and scripts.
use rk_base::NoMemory;
use std::alloc::Global;

/// Numbers that follow from a seed.
#[derive(Drop)]
pub struct Draws {
    state: u64,
}

impl Draws {
    /// Those of this seed.
    pub fn new(seed: u64) -> Draws {
        Draws { state: seed }
    }

    /// A number below this one; 0 where it is 0.
    pub fn draw(&mut self, below: u64) -> u64 {
        self.state = self
            .state
            .wrapping_mul(6364136223846793005)
            .wrapping_add(1442695040888963407);
        (self.state >> 33).checked_rem(below).unwrap_or(0)
    }
}

/// How many sources there are.
pub const SOURCES: u64 = 6;

// Lines of scripts, in which `%A` and `%B` stand for the numbers of two sources, and `%O` for a file that is made of them.
const LINES: [&str; 14] = [
    "cat s%A > %O",
    "grep -F x s%A | sort > %O",
    "cat s%A s%B > %O",
    "wc -l < s%A > %O",
    "x=$(cat s%A); echo \"$x\" $? >> log",
    "for f in s*; do if [ -s $f ]; then head -n 1 $f; fi; done > %O",
    "while read l; do echo \"<$l>\"; done < s%A > %O",
    "mkdir -p d%O; cp s%A d%O; cat d%O/* | sort -u > %O",
    "if cmp -s s%A s%B; then rm -f %O; else cp s%B %O; fi",
    "f() { cat $1 | tr x z; }; f s%A > %O",
    "ln -s -f s%A l%O; cat l%O > %O; chmod 600 %O",
    "(mkdir -p d%O && cd d%O && cat ../s%A > p) || echo failed %O >> log",
    "{ mv t%O %O; cat s%A; } > t%O",
    "set -- $(sort s%A s%B); echo $# \"$1\" | tee %O",
];

/// What is drawn for a line.
#[derive(Clone, Copy)]
struct Parts<'a> {
    a: &'a str,
    b: &'a str,
    to: &'a str,
}

fn push_two(text: &mut String, first: &str, second: &str) -> Result<(), NoMemory> {
    text.push_str(first)?;
    text.push_str(second)?;
    Ok(())
}

// What stands behind a `%`.
fn push_piece(text: &mut String, piece: &str, parts: &Parts<'_>) -> Result<(), NoMemory> {
    match piece.split_at_checked(1) {
        Some(("A", rest)) => push_two(text, parts.a, rest),
        Some(("B", rest)) => push_two(text, parts.b, rest),
        Some(("O", rest)) => push_two(text, parts.to, rest),
        _ => push_two(text, piece, ""),
    }
}

fn push_line(text: &mut String, kind: u64, parts: &Parts<'_>) -> Result<(), NoMemory> {
    let line = LINES.get(kind as usize).unwrap_or(&"");
    'pieces: for piece in line.split('%') {
        push_piece(text, piece, parts)?;
    }
    text.push('\n')?;
    Ok(())
}

fn digits(alloc: Global, n: u64) -> Result<String, NoMemory> {
    let text = format!(in alloc; "{n}")?;
    Ok(text)
}

fn target(alloc: Global, j: u64, i: u64) -> Result<String, NoMemory> {
    let name = format!(in alloc; "o{j}_{i}")?;
    Ok(name)
}

// A line of a script, by the number of the script and its own.
fn draw_line(
    alloc: Global,
    text: &mut String,
    draws: &mut Draws,
    j: u64,
    i: u64,
) -> Result<(), NoMemory> {
    let a = digits(alloc, draws.draw(SOURCES))?;
    let b = digits(alloc, draws.draw(SOURCES))?;
    let kind = draws.draw(LINES.len() as u64);
    let to = target(alloc, j, i)?;
    let parts = Parts {
        a: a.as_str(),
        b: b.as_str(),
        to: to.as_str(),
    };
    push_line(text, kind, &parts)
}

fn word(alloc: Global, letter: &str, number: u64) -> Result<String, NoMemory> {
    let text = format!(in alloc; "{letter}{number}\n")?;
    Ok(text)
}

/// The text of a source.
pub fn source(alloc: Global, draws: &mut Draws) -> Result<String, NoMemory> {
    let mut text = String::new(alloc);
    'lines: for _ in 0..draws.draw(5) {
        let letter = if draws.draw(2) == 0 { "x" } else { "y" };
        text.push_str(word(alloc, letter, draws.draw(20))?.as_str())?;
    }
    Ok(text)
}

/// The text of the script of a number, of so many lines.
pub fn script(alloc: Global, draws: &mut Draws, j: u64, lines: u64) -> Result<String, NoMemory> {
    let mut text = String::new(alloc);
    'lines: for i in 0..lines {
        draw_line(alloc, &mut text, draws, j, i)?;
    }
    Ok(text)
}
