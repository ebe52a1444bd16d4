//! Trees made of a node and two trees.
ghost use Rattle.pfl_containers.specs.inner.Trees.{Joins, Steadies};
ghost use Rattle.pfl_containers.specs.inner.Balances.{Links, Balances, TurnsRight, TurnsLeft, LeansLeft, LeansRight, TakesLeft, TakesRight};

use crate::order::node::{Node, height, node_at, put};

/// One tree of a node and the trees that it names, which are about as high as each other.
#[inline]
pub(crate) fn linked<K: Copy, V: Copy>(
    nodes: &mut [Node<K, V>],
    place: u32,
    mut node: Node<K, V>,
) -> u32
    ensures joins { Joins nodes.old nodes.new place node Links result }
{
    let left = height(nodes, node.left);
    let right = height(nodes, node.right);
    node.height = left.max(right).saturating_add(1);
    put(nodes, place, node);
    place
}

/// One tree of the node at a place, whose left tree was `was` levels high and is the one at `left` now. Where it stands and is as
/// high as before, nothing is written.
#[inline]
pub(crate) fn with_left<K: Copy, V: Copy>(
    nodes: &mut [Node<K, V>],
    place: u32,
    left: u32,
    was: u8,
) -> u32
    ensures takes { TakesLeft nodes.old nodes.new place left was result }
{
    let Some(node) = node_at(nodes, place) else {
        return place;
    };
    if left == node.left && height(nodes, left) == was {
        return place;
    }
    let node = Node { left, ..*node };
    balanced(nodes, place, node)
}

/// One tree of the node at a place, whose right tree was `was` levels high and is the one at `right` now. Where it stands and is
/// as high as before, nothing is written.
#[inline]
pub(crate) fn with_right<K: Copy, V: Copy>(
    nodes: &mut [Node<K, V>],
    place: u32,
    right: u32,
    was: u8,
) -> u32
    ensures takes { TakesRight nodes.old nodes.new place right was result }
{
    let Some(node) = node_at(nodes, place) else {
        return place;
    };
    if right == node.right && height(nodes, right) == was {
        return place;
    }
    let node = Node { right, ..*node };
    balanced(nodes, place, node)
}

/// One tree of a node and the trees that it names, one of which may be two levels higher than the other.
pub(crate) fn balanced<K: Copy, V: Copy>(
    nodes: &mut [Node<K, V>],
    place: u32,
    mut node: Node<K, V>,
) -> u32
    ensures joins { Joins nodes.old nodes.new place node Balances result }
{
    let left = height(nodes, node.left);
    let right = height(nodes, node.right);
    if left > right.saturating_add(1) {
        node.left = leant_left(nodes, node.left);
        turned_right(nodes, place, node)
    } else if right > left.saturating_add(1) {
        node.right = leant_right(nodes, node.right);
        turned_left(nodes, place, node)
    } else {
        linked(nodes, place, node)
    }
}

/// One tree as `linked` makes it, under the node of the left one.
fn turned_right<K: Copy, V: Copy>(nodes: &mut [Node<K, V>], place: u32, mut node: Node<K, V>) -> u32
    ensures joins { Joins nodes.old nodes.new place node TurnsRight result }
{
    let top = node.left;
    let Some(left) = node_at(nodes, top) else {
        return linked(nodes, place, node);
    };
    let mut left = *left;
    node.left = left.right;
    left.right = linked(nodes, place, node);
    linked(nodes, top, left)
}

/// One tree as `linked` makes it, under the node of the right one.
fn turned_left<K: Copy, V: Copy>(nodes: &mut [Node<K, V>], place: u32, mut node: Node<K, V>) -> u32
    ensures joins { Joins nodes.old nodes.new place node TurnsLeft result }
{
    let top = node.right;
    let Some(right) = node_at(nodes, top) else {
        return linked(nodes, place, node);
    };
    let mut right = *right;
    node.right = right.left;
    right.left = linked(nodes, place, node);
    linked(nodes, top, right)
}

/// The tree with a left side that is no lower than its right side, where that was one level higher.
fn leant_left<K: Copy, V: Copy>(nodes: &mut [Node<K, V>], link: u32) -> u32
    ensures steadies { Steadies nodes.old nodes.new link LeansLeft result }
{
    let Some(node) = node_at(nodes, link) else {
        return link;
    };
    if height(nodes, node.right) <= height(nodes, node.left) {
        return link;
    }
    let node = *node;
    turned_left(nodes, link, node)
}

/// The tree with a right side that is no lower than its left side, where that was one level higher.
fn leant_right<K: Copy, V: Copy>(nodes: &mut [Node<K, V>], link: u32) -> u32
    ensures steadies { Steadies nodes.old nodes.new link LeansRight result }
{
    let Some(node) = node_at(nodes, link) else {
        return link;
    };
    if height(nodes, node.left) <= height(nodes, node.right) {
        return link;
    }
    let node = *node;
    turned_right(nodes, link, node)
}
