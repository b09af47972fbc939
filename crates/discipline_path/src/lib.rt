// The path of a push to a leaf: the ranks that the disciplines of a drawing give a packet at each node, and the finishes after it.
#![tactic(auto)]

mod shares;

ghost use Rattle.std.specs.Prelude.{◌≡◌, ◌<◌, [], true, Some};
ghost use Rattle.topology.specs.Reader.{fault, tree};
ghost use Rattle.queue_push.specs.Calls.{path_of};
ghost use Rattle.discipline_model.specs.Figure.{kind_at, acts_by, rank_by};
ghost use Rattle.discipline_model.specs.Scheduler.{is_leaf};
ghost use Rattle.discipline_path.specs.Plans.{Planned};
ghost use Rattle.discipline_path.specs.InnerShares.{stepped};

use discipline_model::{Disciplines, acts_as};
use queue_push::{Path, extended};
use queue_state::Rank;
use topology::{Child, TARGET_NODES};
use topology_branches::toward;

// The path to a leaf, and the finishes after the packet; no finishes if one of them does not fit.
#[derive(Clone, Copy)]
pub struct Plan {
    pub path: Path,
    pub finish: Option<[Rank; 64]>,
}

// The plan before the first step, for a leaf below 64: the rank at the leaf, and the finishes as they are.
fn begun(disciplines: &Disciplines, leaf: usize, class: u8) -> Plan
    requires { leaf < 64 }
    ensures { result
        ≡ record { path = path_of [] (rank_by (kind_at disciplines.now.rules leaf) 0 class); finish = Some disciplines.now.finish } }
{
    let discipline = acts_as(0, disciplines.rules[leaf].discipline);
    Plan {
        path: Path::new(shares::rank(discipline, 0, class)),
        finish: Some(disciplines.finish),
    }
}

// The plan with one more step, from a node with `children` children to its child.
fn step_down(
    plan: Plan,
    disciplines: &Disciplines,
    children: u8,
    node: usize,
    child: Child,
    class: u8,
    length: u16,
) -> Plan
    requires { (node < 64) × (child.node < 64) }
    ensures { result
        ≡ stepped disciplines.now (acts_by children (kind_at disciplines.now.rules node)) node child class length plan }
{
    let rule = disciplines.rules[node];
    let discipline = acts_as(children, rule.discipline);
    let start = disciplines.virtual_time[node].max(disciplines.finish[child.node]);
    let more = shares::added(length, disciplines.rules[child.node].weight);
    Plan {
        path: extended(
            plan.path,
            child.number,
            shares::rank(discipline, start, class),
        ),
        finish: shares::finished(plan.finish, discipline, child.node, start, more),
    }
}

// The plan of a push to a leaf. The contract says what it is if the bytes are a tree and `leaf` is one of its leaves.
pub fn plan_to(bytes: &[u8], disciplines: Disciplines, leaf: usize, class: u8, length: u16) -> Plan
    ensures { fault 64 bytes.now ≡ 0 → is_leaf (tree bytes.now) leaf ≡ true → Planned (tree bytes.now) disciplines leaf class length result }
{
    // No tree has such a leaf.
    if TARGET_NODES <= leaf {
        return begun(&disciplines, 0, class);
    }
    let mut plan = begun(&disciplines, leaf, class);
    let mut node = 0;
    while let Some(child) = toward(bytes, node, leaf) {
        plan = step_down(plan, &disciplines, bytes[node], node, child, class, length);
        node = child.node;
    }
    plan
}
