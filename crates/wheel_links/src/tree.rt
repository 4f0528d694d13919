// The tree of least moments over the ids.
ghost use Rattle.std.specs.Prelude.{◌≡◌, ◌≢◌, ◌+◌, ◌*◌, ◌/◌, ◌-◌, ◌^◌, ◌<◌, ◌≤◌, Some, IfOk, IfSome, IfNone, length, slice_set};
ghost use Rattle.wheel_links.specs.Due.{IsNextDue, IsNoneDue};
ghost use Rattle.wheel_links.specs.Members.{capacity_of, empty, moment_of};
ghost use Rattle.wheel_links.specs.Tree.{IsTree, FitsBut, lesser, node_of};

use crate::Steps;
use site_base::{Moment, OutOfMemory};
use std::alloc::Global;
use std::marker::Model;
use std::sync::ledger::Ledger;

/// The moments of the ids, with a tree over them of least moments. Clauses see it as the map from
/// ids to moments.
///
/// Node 1 is the root, and the nodes below node `n` are `2 * n` and `2 * n + 1`. An inner node
/// holds the lesser moment of the two below it. The leaves come after the inner nodes: one for each
/// id in their order, and as many without a moment as make their number a power of two.
#[derive(Drop)]
pub(crate) struct MomentTree {
    /// The moments of the inner nodes by their numbers. There is no node 0.
    inner: Vec<Option<Moment>>,
    /// The moment of each id, if it is a member.
    moments: Vec<Option<Moment>>,
    /// How many levels of inner nodes there are.
    depth: u32,
}

impl Model for MomentTree {
    ghost use Rattle.wheel_links.specs.Members.{Members};
    ghost use Rattle.wheel_links.specs.Tree.{IsTree};

    ghost Value = { Members };

    ghost view = { λ t. t.moments.items };

    ghost invariant = { λ t. IsTree t.depth t.inner.items t.moments.items };
}

impl MomentTree {
    /// A tree with no member, for the ids below a capacity.
    pub(crate) fn new(alloc: Global, capacity: u32) -> Result<MomentTree, OutOfMemory>
        requires { capacity < 2 ^ 32 - 1 }
        ensures { IfOk result (λ t. t ≡ empty capacity) }
    {
        let depth = depth_for(capacity);
        let inner = vec![in alloc; None; 1usize << depth]?;
        let moments = vec![in alloc; None; capacity as usize]?;
        Ok(MomentTree {
            inner,
            moments,
            depth,
        })
    }

    /// An id's moment, if it is a member.
    pub(crate) fn of(&self, id: u32) -> Option<Moment>
        requires { id < capacity_of self.now }
        ensures { result ≡ moment_of self.now id }
    {
        self.moments[id as usize]
    }

    /// Gives an id a moment, or takes it, and rewrites the nodes above the id's leaf.
    pub(crate) fn set(&mut self, id: u32, moment: Option<Moment>)
        requires { id < capacity_of self.old }
        ensures { self.new ≡ slice_set self.old id moment }
    {
        self.moments[id as usize] = moment;
        let leaf = self.inner.len() + id as usize;
        rewrite_above(&mut self.inner, &self.moments, leaf);
    }

    /// The member that is due first, if its moment is at or before this one. It looks at the root,
    /// and then at a node of each level below.
    pub(crate) fn first<L: Ledger>(&self, now: Moment, steps: &mut Steps<L>) -> Option<u32>
        ensures none { IfNone result (IsNoneDue self.now now) }
        ensures first { IfSome result (λ id. IsNextDue self.now now id) }
        ensures cost { steps.new ≤ steps.old + 33 }
    {
        let Some(least) = look(&self.inner, &self.moments, 1, steps) else {
            return None;
        };
        if least > now {
            return None;
        }
        Some(leftmost(&self.inner, &self.moments, self.depth, least, steps))
    }
}

/// The least number of levels with a leaf for each id below the capacity.
fn depth_for(capacity: u32) -> u32
    ensures few { result ≤ 32 }
    ensures leaves { capacity ≤ 2 ^ result }
    ensures least { 2 ^ result ≤ 2 * (capacity - 1) + 1 }
{
    u32::BITS - capacity.saturating_sub(1).leading_zeros()
}

/// The lesser of two moments, if there are such.
fn lesser(a: Option<Moment>, b: Option<Moment>) -> Option<Moment>
    ensures { result ≡ lesser a b }
{
    match (a, b) {
        (Some(a), Some(b)) => Some(a.min(b)),
        (Some(a), None) => Some(a),
        (None, b) => b,
    }
}

/// A node's moment, if there is one below it.
fn moment_at(inner: &[Option<Moment>], moments: &[Option<Moment>], node: usize) -> Option<Moment>
    ensures { result ≡ node_of inner.now moments.now node }
{
    if node < inner.len() {
        return inner[node];
    }
    let id = node - inner.len();
    if id < moments.len() {
        moments[id]
    } else {
        None
    }
}

/// Rewrites the nodes above a leaf, from the lowest up, until one has the moment already that it is to have.
fn rewrite_above(inner: &mut [Option<Moment>], moments: &[Option<Moment>], leaf: usize)
    requires few { length inner.old ≤ 2 ^ 32 }
    requires some { 0 < leaf }
    requires leaf { leaf < 2 * length inner.old }
    requires others { FitsBut (leaf / 2) inner.old moments.now }
    ensures length { length inner.new ≡ length inner.old }
    ensures all { FitsBut 0 inner.new moments.now }
{
    let mut node = leaf;
    while node > 1 {
        node /= 2;
        let left = moment_at(inner, moments, 2 * node);
        let right = moment_at(inner, moments, 2 * node + 1);
        let least = lesser(left, right);
        if inner[node] == least {
            return;
        }
        inner[node] = least;
    }
}

/// A look at a node: its moment, if there is one below it. It counts one step.
fn look<L: Ledger>(
    inner: &[Option<Moment>],
    moments: &[Option<Moment>],
    node: usize,
    steps: &mut Steps<L>,
) -> Option<Moment>
    ensures moment { result ≡ node_of inner.now moments.now node }
    ensures cost { steps.new ≡ steps.old + 1 }
{
    steps.tick();
    moment_at(inner, moments, node)
}

/// The node to the left below an inner node if it holds this moment, and else the one to the right.
/// It looks at the left one.
fn left_or_right<L: Ledger>(
    inner: &[Option<Moment>],
    moments: &[Option<Moment>],
    node: usize,
    moment: Moment,
    steps: &mut Steps<L>,
) -> usize
    requires few { length inner.now ≤ 2 ^ 32 }
    requires inner { node < length inner.now }
    ensures left { node_of inner.now moments.now (2 * node) ≡ Some moment →
        result ≡ 2 * node }
    ensures right { node_of inner.now moments.now (2 * node) ≢ Some moment →
        result ≡ 2 * node + 1 }
    ensures cost { steps.new ≡ steps.old + 1 }
{
    let left = 2 * node;
    if look(inner, moments, left, steps) == Some(moment) {
        left
    } else {
        left + 1
    }
}

/// The least id with the least moment. It goes from the root to the left where that moment is
/// there, and else to the right, with one look a level.
fn leftmost<L: Ledger>(
    inner: &[Option<Moment>],
    moments: &[Option<Moment>],
    depth: u32,
    least: Moment,
    steps: &mut Steps<L>,
) -> u32
    requires tree { IsTree depth inner.now moments.now }
    requires least { node_of inner.now moments.now 1 ≡ Some least }
    ensures first { IsNextDue moments.now least result }
    ensures cost { steps.new ≡ steps.old + depth }
{
    let mut node = 1;
    for _ in 0..depth {
        node = left_or_right(inner, moments, node, least, steps);
    }
    (node - inner.len()) as u32
}
