// Where a path led, with a name of its own: a place borrows the tree, which a call then changes.
ghost use Rattle.std.specs.Prelude.{◌≡◌, IfOk, Ok};
ghost use Rattle.rk_tree.specs.Hierarchy.{Hierarchy};
ghost use Rattle.rk_walk.specs.Places.{IsFound, IsPlaceOf};
ghost use Rattle.rk_walk.specs.Walk.{resolve};
ghost use Rattle.rk_walk.specs.declared.place.Place.TheVariants.{Found};
ghost use Rattle.rk_kernel.specs.Rows.{strict};
ghost use Rattle.rk_kernel.specs.Spot.{spot_means, IsSpotOf};

use rk_base::{Errno, Name, NoMemory};
use rk_tree::{NodeId, Tree};
use rk_walk::{Here, Place};
use std::alloc::Global;

#[derive(Drop)]
pub(crate) enum Spot {
    // The node, the directory and the name under which it was found, and whether a slash stands after it.
    Found(NodeId, Option<(NodeId, Name)>, bool),
    // The directory, the name, and whether a slash stands after it.
    Absent(NodeId, Name, bool),
    Fails(Errno),
}

fn found(alloc: Global, here: &Here<'_>) -> Result<Spot, NoMemory>
    ensures means { IfOk result (λ s. spot_means s ≡ Ok (Found here.entry.now)) }
    ensures stands { IfOk result (λ s. (tree : Hierarchy) → IsFound tree here.entry.now.node here.entry.now.up → IsSpotOf tree s) }
{
    match &here.up {
        None => Ok(Spot::Found(here.node, None, here.slash)),
        Some((dir, name)) => {
            let name = name.to_name(alloc)?;
            Ok(Spot::Found(here.node, Some((*dir, name)), here.slash))
        }
    }
}

// Where a path led.
pub(crate) fn spot_of(alloc: Global, place: Result<Place<'_>, Errno>) -> Result<Spot, NoMemory>
    ensures means { IfOk result (λ s. spot_means s ≡ place.entry) }
    ensures stands { IfOk result (λ s. (tree : Hierarchy) → IfOk place.entry (IsPlaceOf tree) → IsSpotOf tree s) }
{
    match place {
        Err(e) => Ok(Spot::Fails(e)),
        Ok(place) => match place {
            Place::Found(here) => found(alloc, &here),
            Place::Absent { dir, name, slash } => {
                let name = name.to_name(alloc)?;
                Ok(Spot::Absent(dir, name, slash))
            }
        },
    }
}

// Where a path leads, with its last link followed or not.
pub(crate) fn spot_at(
    alloc: Global,
    tree: &Tree,
    path: &[u8],
    follow: bool,
) -> Result<Spot, NoMemory>
    ensures means { IfOk result (λ s. spot_means s ≡ resolve tree.now path.now follow) }
    ensures stands { IfOk result (IsSpotOf tree.now) }
{
    let spot = spot_of(alloc, rk_walk::resolve(tree, path, follow))?;
    Ok(spot)
}

// Where a path leads to, where an absent name with a slash after it is no entry.
pub(crate) fn without_slash(spot: Spot) -> Spot
    ensures means { spot_means result ≡ strict (spot_means spot) }
    ensures stands { (tree : Hierarchy) → IsSpotOf tree spot → IsSpotOf tree result }
{
    match spot {
        Spot::Found(n, up, slash) => Spot::Found(n, up, slash),
        Spot::Absent(dir, name, slash) => {
            if slash {
                Spot::Fails(Errno::NoEntry)
            } else {
                Spot::Absent(dir, name, slash)
            }
        }
        Spot::Fails(e) => Spot::Fails(e),
    }
}

// The same, where the path is resolved here.
pub(crate) fn strict_spot_at(
    alloc: Global,
    tree: &Tree,
    path: &[u8],
    follow: bool,
) -> Result<Spot, NoMemory>
    ensures means { IfOk result (λ s. spot_means s ≡ strict (resolve tree.now path.now follow)) }
    ensures stands { IfOk result (IsSpotOf tree.now) }
{
    let spot = spot_at(alloc, tree, path, follow)?;
    Ok(without_slash(spot))
}
