// The kept nodes of a drawing (paper 02, 2.2). An inner node with one child is passed over, so a node is kept if its byte is not 1.
#![tactic(auto)]

ghost use Rattle.std.specs.Prelude.{◌≡◌, take};
ghost use Rattle.topology_reduction.specs.Reduced.{next_kept, restricted, spread, in32};

use byte_list::ByteList;

// What a map has at a node that is passed over; no target node has this number. It is no `None`: a map's bytes are the chip's, 255 among them.
pub const PASSED_OVER: u8 = 255;

// The node itself or, if it is passed over, the next kept node below it.
pub fn next_kept(bytes: &[u8], node: usize) -> usize
    ensures { result ≡ next_kept bytes.now node }
{
    let Some(rest) = bytes.get(node..) else {
        return node;
    };
    node + rest
        .iter()
        .position(|&children| children != 1)
        .unwrap_or(rest.len())
}

// A list restricted to the kept nodes among the first 32 nodes. A map gives the images of the kept nodes, and the bytes themselves give the bytes
// of the reduced drawing.
pub fn restrict(bytes: &[u8], list: &[u8]) -> ByteList<32>
    ensures { result.items ≡ restricted (take 32 bytes.now) list.now }
{
    let mut numbers = ByteList::new();
    for (&children, &number) in bytes.iter().zip(list).take(32) {
        if children != 1 {
            numbers.add(number);
        }
    }
    numbers
}

// The images spread over the first 32 nodes: at the kept nodes the images in order, and 255 at the nodes that are passed over.
pub fn spread_out(bytes: &[u8], images: &[u8; 32]) -> [u8; 32]
    ensures { result ≡ in32 (spread (take 32 bytes.now) images.now) }
{
    let nodes = &bytes[..bytes.len().min(32)];
    let mut map = [0u8; 32];
    // the number of images that are placed; an iterator over them would give an `Option` at each kept node, and never `None`
    let mut next = 0;
    for (n, &children) in nodes.iter().enumerate() {
        if children == 1 {
            map[n] = PASSED_OVER;
        } else {
            map[n] = images[next];
            next += 1;
        }
    }
    map
}
