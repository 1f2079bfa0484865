// Numbers that are drawn from a seed.
ghost use Rattle.std.specs.Prelude.{◌≡◌, ◌<◌};
ghost use Rattle.rk_gen.specs.Draws.{draw, next};

use std::marker::Model;

const MULTIPLIER: u64 = 6_364_136_223_846_793_005;

const INCREMENT: u64 = 1_442_695_040_888_963_407;

/// A linear congruential generator of 64 bits. Equal seeds draw equal numbers.
#[derive(Debug, Drop)]
pub struct Draws {
    x: u64,
}

impl Model for Draws {
    ghost use Rattle.std.specs.Prelude.{ℕ};

    ghost Value = { ℕ };

    ghost view = { λ d. d.x };
}

impl Draws {
    /// The draws of a seed, from the first on.
    pub fn new(seed: u64) -> Draws
        ensures { result ≡ seed }
    {
        Draws { x: seed }
    }

    /// The next number, below `m`.
    pub fn draw(&mut self, m: u64) -> u64
        requires { 0 < m }
        ensures drawn { result ≡ draw m self.old }
        ensures below { result < m }
        ensures after { self.new ≡ next self.old }
    {
        self.x = self.x.wrapping_mul(MULTIPLIER).wrapping_add(INCREMENT);
        (self.x >> 33) % m
    }
}
