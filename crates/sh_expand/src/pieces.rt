// The components of a field.
ghost use Rattle.std.specs.Prelude.{◌≡◌, ◌++◌, ◌∷◌, [], false, true, IfOk, OnOk, MatchOption};
ghost use Rattle.std.specs.List.{list_all};
ghost use Rattle.sh_split.specs.Marked.{pattern_of};
ghost use Rattle.sh_expand.specs.Fields.{component_of, is_slash_mark, components_from, components, is_pattern, has_pattern, is_plain_byte, is_plain};

use crate::glob::Component;
use rk_base::NoMemory;
use sh_pattern::{has_special, unquoted};
use sh_split::{Mark, pattern_of};
use std::alloc::Global;
use std::collections::VecDeque;

fn is_slash(mark: Mark) -> bool
    ensures { result ≡ is_slash_mark mark }
{
    match mark {
        Mark::Literal(b) => b == b'/',
        Mark::Quoted(b) => b == b'/',
        Mark::Given(b) => b == b'/',
        Mark::Quote => false,
        Mark::Break => false,
    }
}

fn component_of(alloc: Global, piece: &[Mark]) -> Result<Component, NoMemory>
    ensures { IfOk result (λ it. it ≡ component_of (pattern_of piece.now)) }
{
    let pattern = pattern_of(alloc, piece)?;
    if has_special(pattern.as_slice()) {
        return Ok(Component::Pattern(pattern));
    }
    let text = unquoted(alloc, pattern.as_slice())?;
    Ok(Component::Literal(text))
}

// The piece so far ends.
fn end(
    alloc: Global,
    piece: &mut Vec<Mark>,
    components: &mut VecDeque<Component>,
) -> Result<(), NoMemory>
    ensures components { OnOk result (components.new.items ≡ components.old.items ++ component_of (pattern_of piece.old.items) ∷ []) }
    ensures piece { OnOk result (piece.new.items ≡ []) }
{
    let component = component_of(alloc, piece.as_slice())?;
    components.push_back(component)?;
    *piece = Vec::new(alloc);
    Ok(())
}

// The components of a field, cut at each slash.
fn components(alloc: Global, field: &[Mark]) -> Result<VecDeque<Component>, NoMemory>
    ensures { IfOk result (λ cs. cs.items ≡ components field.now) }
{
    let mut components = VecDeque::new(alloc);
    let mut piece = Vec::new(alloc);
    'marks: for mark in field {
        if is_slash(*mark) {
            end(alloc, &mut piece, &mut components)?;
        } else {
            piece.push(*mark)?;
        }
    }
    end(alloc, &mut piece, &mut components)?;
    Ok(components)
}

fn is_pattern(component: &Component) -> bool
    ensures { result ≡ is_pattern component.now }
{
    match component {
        Component::Literal(_) => false,
        Component::Pattern(_) => true,
    }
}

// Whether one of the components is a pattern.
fn has_pattern(components: &VecDeque<Component>) -> bool
    ensures { result ≡ has_pattern components.now.items }
{
    components.iter().any(|component| is_pattern(component))
}

fn is_plain_byte(b: u8) -> bool
    ensures { result ≡ is_plain_byte b }
{
    !(b == b'*' || b == b'?' || b == b'[' || b == b'\\')
}

fn is_plain(mark: Mark) -> bool
    ensures { result ≡ is_plain mark }
{
    match mark {
        Mark::Literal(b) => is_plain_byte(b),
        Mark::Quoted(b) => is_plain_byte(b),
        Mark::Given(b) => is_plain_byte(b),
        Mark::Quote => true,
        Mark::Break => true,
    }
}

fn are_plain(field: &[Mark]) -> bool
    ensures { result ≡ list_all is_plain field.now }
{
    field.iter().all(|mark| is_plain(*mark))
}

/// The components of a field of which one is a pattern, and `None` of another. Where no byte may make one, as in most
/// fields, it isn't cut.
#[tactic(auto, using(crate::proofs::PlainLemmas::no_pattern))]
pub(crate) fn patterned(
    alloc: Global,
    field: &[Mark],
) -> Result<Option<VecDeque<Component>>, NoMemory>
    ensures { IfOk result (λ o. MatchOption o (has_pattern (components field.now) ≡ false) (λ cs. (has_pattern (components field.now) ≡ true) × (cs.items ≡ components field.now))) }
{
    if are_plain(field) {
        return Ok(None);
    }
    let components = components(alloc, field)?;
    if has_pattern(&components) {
        return Ok(Some(components));
    }
    Ok(None)
}
