// Steps of pieces of commands, one after another.
use rk_base::NoMemory;
use rk_steps::{Subject, number, plain, text, word};
use rk_waves::{Piece, Table, waves};
use std::alloc::Global;

/// Whether each cell gathers, how many commands there are, and the pieces so far.
#[derive(Drop)]
pub(crate) struct Placed {
    alloc: Global,
    gathers: Vec<bool>,
    commands: usize,
    table: Table,
    pieces: Vec<Piece>,
}

// The numbers between commas; none of `-`.
fn numbers_of(alloc: Global, word: &[u8]) -> Result<Vec<usize>, NoMemory> {
    let mut numbers = Vec::new(alloc);
    let text = str::from_utf8(word).unwrap_or("");
    'numbers: for part in text.split(',') {
        if let Ok(number) = part.parse::<usize>() {
            numbers.push(number)?;
        }
    }
    Ok(numbers)
}

fn piece_of(alloc: Global, words: &[Vec<u8>]) -> Result<Piece, NoMemory> {
    let reads = numbers_of(alloc, word(words, 2))?;
    let writes = numbers_of(alloc, word(words, 3))?;
    Ok(Piece {
        owner: number(words, 1) as usize,
        reads,
        writes,
    })
}

fn wave_shown(alloc: Global, wave: usize) -> Result<String, NoMemory> {
    let text = format!(in alloc; "wave {wave}")?;
    Ok(text)
}

// A letter for each cell: `g` where it gathers.
fn gathers_of(alloc: Global, word: &[u8]) -> Result<Vec<bool>, NoMemory> {
    let mut gathers = Vec::new(alloc);
    'cells: for letter in word {
        gathers.push(*letter == b'g')?;
    }
    Ok(gathers)
}

// The greatest wave.
fn last_of(waves: &[usize]) -> usize {
    let mut last = 0;
    'waves: for wave in waves {
        last = last.max(*wave);
    }
    last
}

fn all_shown(alloc: Global, waves: &[usize]) -> Result<String, NoMemory> {
    let mut text = plain(alloc, "waves")?;
    'waves: for wave in waves {
        let one = format!(in alloc; " {wave}")?;
        text.push_str(one.as_str())?;
    }
    Ok(text)
}

impl Placed {
    pub(crate) fn new(alloc: Global) -> Result<Placed, NoMemory> {
        let table = Table::new(alloc, &[], 0)?;
        Ok(Placed {
            alloc,
            gathers: Vec::new(alloc),
            commands: 0,
            table,
            pieces: Vec::new(alloc),
        })
    }

    fn begin(&mut self, words: &[Vec<u8>]) -> Result<String, NoMemory> {
        self.commands = number(words, 1) as usize;
        self.gathers = gathers_of(self.alloc, word(words, 2))?;
        self.table = Table::new(self.alloc, self.gathers.as_slice(), self.commands)?;
        self.pieces = Vec::new(self.alloc);
        plain(self.alloc, "begun")
    }

    fn place(&mut self, words: &[Vec<u8>]) -> Result<String, NoMemory> {
        let piece = piece_of(self.alloc, words)?;
        let wave = self.table.place(&piece)?;
        self.pieces.push(piece)?;
        wave_shown(self.alloc, wave)
    }

    fn all(&self) -> Result<Vec<usize>, NoMemory> {
        waves(
            self.alloc,
            self.gathers.as_slice(),
            self.commands,
            self.pieces.as_slice(),
        )
    }
}

impl Subject for Placed {
    fn fresh(&mut self) -> Result<(), NoMemory> {
        *self = Placed::new(self.alloc)?;
        Ok(())
    }

    fn step(&mut self, words: &[Vec<u8>]) -> Result<String, NoMemory> {
        let alloc = self.alloc;
        match text(words, 0) {
            "begin" => self.begin(words),
            "place" => self.place(words),
            "all" => all_shown(alloc, self.all()?.as_slice()),
            "last" => wave_shown(alloc, last_of(self.all()?.as_slice())),
            _ => plain(alloc, "unknown step"),
        }
    }
}
