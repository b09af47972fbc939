// The test of the disciplines of a drawing (refusal 24).
//
// The functions take any bytes; their names say what they mean if `topology::read` accepts the bytes.
#![tactic(auto)]

ghost use Rattle.std.specs.Prelude.{◌≡◌, ◌<◌, length};
ghost use Rattle.refusal.specs.Numbers.{number_of};
ghost use Rattle.topology.specs.Reader.{tree};
ghost use Rattle.topology.specs.Reader.{fault as reader_fault};
ghost use Rattle.discipline_model.specs.Figure.{weighted, kind_at, sound_at, rule_fault};
ghost use Rattle.discipline_model.specs.Scheduler.{is_leaf};

use discipline_model::{Discipline, Rule};
use refusal::Refusal;
use topology::TARGET_NODES;
use topology_branches::branch_end;

// Whether a weighted node can share: it has children, and each has a weight above 0.
fn can_share(bytes: &[u8], rules: [Rule; 64], node: usize) -> bool
    requires { (node < length bytes.now) × (kind_at rules node ≡ weighted) }
    ensures { reader_fault 64 bytes.now ≡ 0 → result ≡ sound_at (tree bytes.now) rules node }
{
    let children = bytes[node];
    let mut child = node + 1;
    for _ in 0..children {
        let Some(rule) = rules.get(child) else {
            return false;
        };
        if rule.weight == 0 {
            return false;
        }
        child = branch_end(bytes, child);
    }
    0 < children
}

// Tests the rules of a drawing: each names a discipline, and each weighted node can share.
pub fn check_rules(bytes: &[u8], rules: [Rule; 64]) -> Result<(), Refusal>
    ensures { reader_fault 64 bytes.now ≡ 0 → number_of result ≡ rule_fault (tree bytes.now) rules }
{
    // More nodes than rules: the bytes are no tree.
    if TARGET_NODES < bytes.len() {
        return Err(Refusal::Rules);
    }
    for node in 0..bytes.len() {
        let discipline = Discipline::try_from(rules[node].discipline)?;
        if discipline == Discipline::Weighted && !can_share(bytes, rules, node) {
            return Err(Refusal::Rules);
        }
    }
    Ok(())
}

// Whether `node` is a leaf of the drawing.
pub fn is_leaf(bytes: &[u8], node: usize) -> bool
    ensures { reader_fault 64 bytes.now ≡ 0 → result ≡ is_leaf (tree bytes.now) node }
{
    match bytes.get(node) {
        Some(&children) => children == 0,
        None => false,
    }
}
