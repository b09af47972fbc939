// The depth, the parent and the child number of a node, the node before it on its parent's trunk, and its role for a map.
//
// For the root `parent`, `child_number` and `trunk_from` answer 0 and no `None`, as their definitions do; callers ask of nodes below the root.
// The bytes and the node are two parameters: functions here ask about many nodes of the same bytes, and would build a struct of both for each.
#![tactic(auto)]

ghost use Rattle.std.specs.Prelude.{◌≡◌, eqb, not};
ghost use Rattle.topology_places.specs.Places.{images_at, images_under, child_number, trunk_from, source_role};
ghost use Rattle.topology_places.specs.Places.{depth as places_depth, parent as places_parent, role_of};

use topology_branches::is_above;

// The role of a node for a map. A source node is plain or passed over. A chip node is plain if there are no images; else it is an image, or lies
// above one (`Between`), or neither (`Unused`).
#[derive(Clone, Copy)]
pub enum Role {
    Plain,
    Passed,
    Image,
    Between,
    Unused,
}

// How many nodes lie above `node`.
pub fn depth(bytes: &[u8], node: usize) -> usize
    ensures { result ≡ places_depth bytes.now node }
{
    (0..node).filter(|&a| is_above(bytes, a, node)).count()
}

// The lowest of the nodes above `node`; 0 for the root.
pub fn parent(bytes: &[u8], node: usize) -> usize
    ensures { result ≡ places_parent bytes.now node }
{
    (0..node).rfind(|&a| is_above(bytes, a, node)).unwrap_or(0)
}

// Which child of its parent `node` is, from 1; 0 for the root.
pub fn child_number(bytes: &[u8], node: usize) -> usize
    ensures { result ≡ child_number bytes.now node }
{
    let above = parent(bytes, node);
    (0..node).filter(|&j| parent(bytes, j + 1) == above).count()
}

// The node that comes before `node` on its parent's trunk: its elder sibling, or its parent if it is child 1. The trunk of a node has that node and
// those that have it as their parent.
pub fn trunk_from(bytes: &[u8], node: usize) -> usize
    ensures { result ≡ trunk_from bytes.now node }
{
    let above = parent(bytes, node);
    (0..node)
        .rfind(|&j| j == above || parent(bytes, j) == above)
        .unwrap_or(0)
}

// The role of a source node with `children` children: an inner node with one child is passed over.
#[tactic(auto, unfolding(crate::specs::Places::source_role))]
pub fn source_role(children: u8) -> Role
    ensures { result ≡ source_role children }
{
    if children == 1 {
        Role::Passed
    } else {
        Role::Plain
    }
}

// Whether `node` is one of the images.
fn is_image(images: &[u8], node: usize) -> bool
    ensures { result ≡ not (eqb (images_at images.now node) 0) }
{
    images.iter().any(|&image| usize::from(image) == node)
}

// Whether one of the images is `node` or lies below it.
fn is_over_image(bytes: &[u8], images: &[u8], node: usize) -> bool
    ensures { result ≡ not (eqb (images_under bytes.now images.now node) 0) }
{
    images
        .iter()
        .any(|&image| is_above(bytes, node, usize::from(image)))
}

// The role of node `node` of a chip.
#[tactic(auto, unfolding(crate::specs::Places::role_of))]
pub fn role_of(bytes: &[u8], images: &[u8], node: usize) -> Role
    ensures { result ≡ role_of bytes.now images.now node }
{
    if images.is_empty() {
        Role::Plain
    } else if is_image(images, node) {
        Role::Image
    } else if is_over_image(bytes, images, node) {
        Role::Between
    } else {
        Role::Unused
    }
}
