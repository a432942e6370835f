//! The world: members, the two domains of their folder, and all messages that were ever put.

use crate::note::Note;
use crate::place::Place;
use dory_domain::DomainCore;

/// A world, and nothing more.
#[derive(Drop)]
pub struct World {
    pub members: Vec<Place>,
    pub lead: DomainCore,
    pub follow: DomainCore,
    pub messages: Vec<Note>,
}
