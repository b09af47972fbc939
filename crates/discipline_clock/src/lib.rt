// Virtual times after a pop (paper 02, 2.1): at a weighted node the rank last popped there. A node that is passed over keeps none (2.2).
#![tactic(auto)]

ghost use Rattle.std.specs.Prelude.{◌≡◌};
ghost use Rattle.discipline_clock.specs.Clock.{rank_in, clocked, own_images};

use discipline_model::{Discipline, Disciplines, acts_as};
use queue_pop::Way;
use queue_state::Rank;
use topology::TARGET_NODES;

// The rank that a way has at `node`, if it has one there.
fn rank_in(way: &Way, node: u8) -> Option<Rank>
    ensures { result ≡ rank_in way.now node }
{
    way.taken
        .iter()
        .take(way.count)
        .find(|taken| taken.node == node)
        .map(|taken| taken.rank)
}

// The disciplines of a drawing after a pop: at each node that acts as weighted the virtual time is the rank that `way` has at the node's image, if it
// has one there.
pub fn after_pop(mut disciplines: Disciplines, bytes: &[u8], way: Way, images: &[u8]) -> Disciplines
    ensures { result ≡ clocked disciplines bytes.now way images.now }
{
    for n in 0..bytes.len().min(images.len()).min(TARGET_NODES) {
        if acts_as(bytes[n], disciplines.rules[n].discipline) == Discipline::Weighted {
            if let Some(rank) = rank_in(&way, images[n]) {
                disciplines.virtual_time[n] = rank;
            }
        }
    }
    disciplines
}

// The images for a tree by itself: each node is its own image.
pub fn own_images() -> [u8; 64]
    ensures { result ≡ own_images }
{
    // The cast loses nothing, and a `try_from` would give a Result that is never an error.
    std::array::from_fn(|n| n as u8)
}
