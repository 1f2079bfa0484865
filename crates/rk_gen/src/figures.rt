// What the builds of a workload came to, and the line that tells it.
ghost use Rattle.std.specs.Prelude.{◌≡◌, ◌<◌, ◌+◌, ◌^◌, IfOk, option_copied, string_bytes};
ghost use Rattle.rk_gen.specs.Summary.{added, digest_text, figures_text, no_figures, summary};

use rk_base::{Bytes, NoMemory};
use std::alloc::Global;
use std::marker::Model;

/// What builds came to: how many ended, and sums over these: the commands launched, those of them that ran, and the turns that
/// those paid.
#[derive(Debug, Drop)]
pub struct Figures {
    builds: u64,
    launched: u128,
    ran: u128,
    turns: u128,
}

impl Model for Figures {
    ghost use Rattle.std.specs.Prelude.{◌<◌, ◌≤◌, ◌*◌, ◌^◌};
    ghost use Rattle.rk_gen.specs.Summary.{Sums};

    ghost Value = { Sums };

    ghost view = { λ f. record { builds = f.builds; launched = f.launched; ran = f.ran; turns = f.turns } };

    ghost invariant = { λ f. (f.builds < 2 ^ 32) × (f.launched ≤ f.builds * 2 ^ 64) × (f.ran ≤ f.builds * 2 ^ 64) × (f.turns ≤ f.builds * 2 ^ 64) };
}

impl Figures {
    /// Of no builds.
    pub fn new() -> Figures
        ensures { result ≡ no_figures }
    {
        Figures {
            builds: 0,
            launched: 0,
            ran: 0,
            turns: 0,
        }
    }

    /// One more build ended: of so many commands launched so many ran, and paid so many turns.
    pub fn add(&mut self, launched: u64, ran: u64, turns: u64)
        requires { self.old.builds + 1 < 2 ^ 32 }
        ensures { self.new ≡ added launched ran turns self.old }
    {
        self.builds += 1;
        self.launched += u128::from(launched);
        self.ran += u128::from(ran);
        self.turns += u128::from(turns);
    }
}

#[tactic(auto, unfolding(crate::specs::Summary::figures_text))]
fn figures_text(alloc: Global, it: &Figures) -> Result<String, NoMemory>
    ensures { IfOk result (λ s. string_bytes s ≡ figures_text it.now) }
{
    let builds = it.builds;
    let launched = it.launched;
    let ran = it.ran;
    let turns = it.turns;
    let text = format!(in alloc;
        ": builds {builds}, launched {launched}, ran {ran}, turns {turns}"
    )?;
    Ok(text)
}

#[tactic(auto, unfolding(crate::specs::Summary::digest_text))]
fn digest_text(alloc: Global, digest: Option<&Bytes>) -> Result<String, NoMemory>
    ensures { IfOk result (λ s. string_bytes s ≡ digest_text (option_copied digest.entry)) }
{
    match digest {
        None => {
            let text = String::from_str(alloc, "none")?;
            Ok(text)
        }
        Some(digest) => {
            let text = hex::encode(alloc, digest.as_slice())?;
            Ok(text)
        }
    }
}

/// `gen SEED: builds B, launched L, ran R, turns T, digest D` and a newline. The digest is in hexadecimal; where there is none
/// it is `none`.
#[tactic(auto, unfolding(crate::specs::Summary::summary))]
pub fn summary(
    alloc: Global,
    seed: u64,
    figures: &Figures,
    digest: Option<&Bytes>,
) -> Result<Bytes, NoMemory>
    ensures { IfOk result (λ b. b ≡ summary seed figures.now (option_copied digest.entry)) }
{
    let figures = figures_text(alloc, figures)?;
    let digest = digest_text(alloc, digest)?;
    let text = format!(in alloc; "gen {seed}{figures}, digest {digest}\n")?;
    Bytes::from_slice(alloc, text.as_bytes())
}
