// Worlds that number contents.
ghost use Rattle.std.specs.Prelude.{◌≡◌, ◌↔◌, IsTrue, IfOk, IfErr, IfSome, OnOk, Some, slice_get};
ghost use Rattle.std.specs.Option.{IsSomeAnd};
ghost use Rattle.rk_base.specs.Text.{Text};
ghost use Rattle.rk_content.specs.Contents as texts;
ghost use Rattle.rk_content.specs.Contents.{IsContent};

use crate::ContentId;
use rk_base::{Bytes, NoMemory};
use rk_calls::{Answer, Answerer, Call, Refs};

/// A world that gives the contents that are read of its files numbers of their own: those of two contents are the same exactly
/// where the contents are.
pub trait Numbering: Answerer {
    ghost use Rattle.std.specs.Prelude.{List};
    ghost use Rattle.rk_base.specs.Text.{Text};
    ghost use Rattle.rk_base.specs.declared.memory.NoMemory.{NoMemory};

    /// The contents that have numbers, each at the place of its own.
    ghost contents: { Self → List Text };

    /// What no call changes of all else that it is.
    ghost Keeps: { Self → Self → Type 0 };

    /// What an answer leaves as it was besides.
    ghost Stays: { Self → Self → Type 0 };

    /// What it means that such a call stops, before and afterwards.
    ghost Fails: { Self → Self → Self.Stop → Type 0 };

    /// The answer to a call, as `answer` gives it, with the number of the content that it is, where it has one.
    fn answer_id(
        &mut self,
        refs: &mut Refs,
        call: &Call,
    ) -> Result<(Answer, Option<ContentId>), Self::Stop>
        ensures given { IfOk result (λ r. IfSome (Self.told self.old) (λ before. IsSomeAnd (Self.told self.new) (λ now. record { answer = r.0; refs = refs.new; world = now } ≡ Self.given before refs.old call.now))) }
        ensures number { IfOk result (λ r. IfSome r.1 (λ id. IsContent (contents self.new) id r.0)) }
        ensures kept { IfOk result (λ _. texts.Keeps (contents self.old) (contents self.new)) }
        ensures keeps { Keeps self.old self.new }
        ensures stays { OnOk result (Stays self.old self.new) }
        ensures fails { IfErr result (Fails self.old self.new) };

    /// The number of a content, which gets one if it has none. Nothing else changes.
    fn intern(&mut self, bytes: &Bytes) -> Result<ContentId, NoMemory>
        ensures told { Self.told self.new ≡ Self.told self.old }
        ensures number { IfOk result (λ id. slice_get (contents self.new) id ≡ Some bytes.now) }
        ensures kept { texts.Keeps (contents self.old) (contents self.new) }
        ensures keeps { Keeps self.old self.new }
        ensures stays { Stays self.old self.new };

    /// Whether two contents are the same, by their numbers.
    fn is_same(&self, a: ContentId, b: ContentId) -> bool
        ensures { (text other : Text) → slice_get (contents self.now) a ≡ Some text → slice_get (contents self.now) b ≡ Some other → (IsTrue result ↔ (text ≡ other)) };

    ghost keeps_itself: { (x : Self) → Keeps x x };

    ghost keeps_on: { (x y z : Self) → Keeps x y → Keeps y z → Keeps x z };

    ghost stays_itself: { (x : Self) → Stays x x };

    ghost stays_on: { (x y z : Self) → Stays x y → Stays y z → Stays x z };

    /// A later stop says the same of it as it was before.
    ghost fails_on: { (x y z : Self) (stop : Self.Stop) → Stays x y → Fails y z stop → Fails x z stop };

    /// Want of memory stops it at any time.
    ghost fails_want: { (x y : Self) (want : NoMemory) (stop : Self.Stop) → Stays x y → Self.Stop.from_gives want stop → Fails x y stop };
}
