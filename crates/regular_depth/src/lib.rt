// Which regular chip to buy (paper 02, 2.3): the least depth at which a drawing has a map into a complete tree.
//
// A complete tree of depth k with d children at each inner node has d^k leaves. The code counts the leaves that a drawing needs: a leaf needs one,
// and a node needs the least power of d that is at least the sum of what its children need. So a node with one child, which is passed over, needs
// what its child needs. The contract does not mention this formula; it is stated by the rules of a map (regular_model/specs/Depth).
#![tactic(auto)]

ghost use Rattle.std.specs.Prelude.{◌≡◌, ◌≤◌, ◌^◌, sum};
ghost use Rattle.topology.specs.Reader.{fault, tree};
ghost use Rattle.regular_model.specs.InnerNeed.{enough, need, most_leaves};
ghost use Rattle.regular_depth.specs.Answers.{Answers};

use arrayvec::ArrayVec;
use refusal::Refusal;
use topology::SOURCE_NODES;

// The number d of children of each inner node of a complete tree, as `least_depth` has tested it.
#[derive(Clone, Copy)]
struct Degree {
    d: usize,
    ghost within: { (2 ≤ d) × (d ≤ 8) },
}

impl Degree {
    // The least power of d that is at least a number, and its exponent.
    fn least_power(self, number: usize) -> (usize, usize)
        requires { number ≤ most_leaves }
        ensures power { result.0 ≡ self.d ^ enough self.d number }
        ensures exponent { result.1 ≡ enough self.d number }
    {
        let mut power = 1;
        let mut exponent = 0;
        // A `while`: a range would need an end, which nothing else needs. The power runs beside the exponent: to raise d anew each time took the whole
        // call 1.6 to 1.9 times as long.
        while power < number {
            power *= self.d;
            exponent += 1;
        }
        (power, exponent)
    }

    // How many leaves a node needs, from what its children need.
    fn node_leaves(self, children: &[usize]) -> usize
        requires { sum children.now ≤ most_leaves }
        ensures { result ≡ self.d ^ enough self.d (sum children.now) }
    {
        self.least_power(children.iter().sum()).0
    }

    // How many leaves a drawing needs. The nodes are taken from the last to the first. `leaves` has what the trees after a node need, the next tree's
    // last, so that the node's children are at the end.
    fn leaves_needed(self, source: &[u8]) -> usize
        requires { fault 32 source.now ≡ 0 }
        ensures { result ≡ self.d ^ need self.d (tree source.now) }
    {
        let mut leaves = ArrayVec::<usize, 32>::new();
        for &children in source.iter().rev() {
            let others = leaves.len() - usize::from(children);
            let node = self.node_leaves(&leaves[others..]);
            leaves.truncate(others);
            leaves.push(node);
        }
        leaves[0]
    }
}

// The least depth of a complete tree with d children at each inner node into which the drawing has a map.
#[tactic(auto, using(crate::proofs::LeastDepth::not_drawn))]
pub fn least_depth(source: &[u8], d: usize) -> Result<usize, Refusal>
    ensures { Answers source.now d result }
{
    topology::read(source, SOURCE_NODES)?;
    if !(2..=8).contains(&d) {
        return Err(Refusal::Degree);
    }
    let degree = Degree { d };
    Ok(degree.least_power(degree.leaves_needed(source)).1)
}
