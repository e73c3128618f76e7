//! The ports of a tree by their places.

ghost use Rattle.std.specs.Prelude.{◌≡◌, ◌<◌, ℕ, [], nat_eq, length, position, slice_get, take, IfSome, OnErr, OnOk};
ghost use Rattle.std.specs.BTreeMap.{get};
ghost use Rattle.std.specs.Map.{lookup};
ghost use Rattle.std.specs.Ordering.{nat_cmp};
ghost use Rattle.document_tables.specs.Grids.{place_of};
ghost use Rattle.document_tables.specs.Stops.{ArePlacesOf, IsNoted, few, is_at, with_stop};

use std::alloc::{AllocError, Global};
use std::collections::BTreeMap;
use std::marker::Model;

/// Among so few ports each is found by looking at them all.
const FEW: usize = 16;

/// Ports, each with the one after which it comes, in the order in which they were first passed: contracts see the list of
/// both. Past the first few each is found among the others in the order of their numbers, so that no choice of ports makes
/// it slow.
#[derive(Drop)]
pub struct Stops {
    stops: Vec<(usize, Option<usize>)>,
    places: BTreeMap<usize, usize>,
}

impl Model for Stops {
    ghost use Rattle.std.specs.Prelude.{List};
    ghost use Rattle.document_tables.specs.Stops.{Stop, ArePlacesOf};

    ghost Value = { List Stop };

    ghost view = { λ s. s.stops.items };

    ghost invariant = { λ s. ArePlacesOf s.places s.stops.items };
}

// The place of a port among these.
fn place_among(stops: &[(usize, Option<usize>)], port: usize) -> Option<usize>
    ensures { result ≡ position (is_at port) stops.now }
{
    stops.iter().position(|stop| port == stop.0)
}

// The first few of these.
fn first_few(stops: &[(usize, Option<usize>)]) -> &[(usize, Option<usize>)]
    ensures { result.now ≡ take few stops.now }
{
    if stops.len() <= FEW {
        return stops;
    }
    &stops[..FEW]
}

// The place of a port among these, where the places of those past the first few are noted.
fn place_in(
    stops: &[(usize, Option<usize>)],
    places: &BTreeMap<usize, usize>,
    port: usize,
) -> Option<usize>
    requires { ArePlacesOf places.now stops.now }
    ensures { result ≡ place_of stops.now port }
{
    match place_among(first_few(stops), port) {
        Some(place) => Some(place),
        None => places.get(&port).copied(),
    }
}

// Notes the place of a port, where it is past the first few.
fn note(places: &mut BTreeMap<usize, usize>, port: usize, place: usize) -> Result<(), AllocError>
    ensures noted { OnOk result (IsNoted places.old places.new port place) }
    ensures same { OnErr result ((q : ℕ) → get nat_cmp places.new q ≡ get nat_cmp places.old q) }
{
    if place < FEW {
        return Ok(());
    }
    places.insert(port, place)?;
    Ok(())
}

impl Stops {
    /// No port.
    pub(crate) fn new(alloc: Global) -> Stops
        ensures { result ≡ [] }
    {
        Stops {
            stops: Vec::new(alloc),
            places: BTreeMap::new(alloc),
        }
    }

    /// How many there are.
    pub(crate) fn len(&self) -> usize
        ensures { result ≡ length self.now }
    {
        self.stops.len()
    }

    /// The port at a place, and the one after which it comes.
    pub(crate) fn stop(&self, place: usize) -> (usize, Option<usize>)
        requires { place < length self.now }
        ensures { slice_get self.now place ≡ Some result }
    {
        self.stops[place]
    }

    /// The place of a port.
    pub(crate) fn place_of(&self, port: usize) -> Option<usize>
        ensures value { result ≡ place_of self.now port }
        ensures within { IfSome result (λ place. place < length self.now) }
    {
        place_in(&self.stops, &self.places, port)
    }

    /// The one after which a port comes, where the port is there.
    pub(crate) fn before(&self, port: usize) -> Option<Option<usize>>
        ensures { result ≡ lookup (nat_eq port) self.now }
    {
        match self.place_of(port) {
            Some(place) => Some(self.stop(place).1),
            None => None,
        }
    }

    /// Puts a port behind the others where it is new.
    pub(crate) fn pass(&mut self, port: usize, after: Option<usize>) -> Result<(), AllocError>
        ensures { OnOk result (self.new ≡ with_stop self.old port after) }
    {
        if self.place_of(port).is_some() {
            return Ok(());
        }
        let place = self.stops.len();
        // The first finds room for as many as most trees have.
        self.stops.reserve(if place == 0 { FEW } else { 1 })?;
        note(&mut self.places, port, place)?;
        self.stops.push_reserved((port, after));
        Ok(())
    }
}
