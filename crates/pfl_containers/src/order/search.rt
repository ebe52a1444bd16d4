//! What stands in a tree. Each function goes down at most `steps` nodes.
ghost use Rattle.std.specs.Prelude.{◌≡◌};
ghost use Rattle.pfl_containers.specs.inner.Searches.{Finds, IsFirst, IsLast, IsNext};

use crate::order::node::{Node, node_at};
use crate::order::ordered::Ordered;
use std::cmp::Ordering;

/// The place of the node with the key.
pub(crate) fn found<K: Ordered, V: Copy>(
    nodes: &[Node<K, V>],
    root: u32,
    key: K,
    steps: usize,
) -> Option<u32>
    ensures finds { Finds K.order nodes.now root key steps result }
{
    let mut link = root;
    let mut steps_left = steps;
    while steps_left > 0 {
        let Some(node) = node_at(nodes, link) else {
            return None;
        };
        match key.compare(node.key) {
            Ordering::Less => link = node.left,
            Ordering::Equal => return Some(link),
            Ordering::Greater => link = node.right,
        }
        steps_left -= 1;
    }
    None
}

/// The first entry.
pub(crate) fn first<K: Copy, V: Copy>(
    nodes: &[Node<K, V>],
    root: u32,
    steps: usize,
) -> Option<(K, V)>
    ensures first { IsFirst nodes.now root steps result }
{
    let mut first = None;
    let mut link = root;
    let mut steps_left = steps;
    while steps_left > 0 {
        let Some(node) = node_at(nodes, link) else {
            return first;
        };
        first = Some((node.key, node.value));
        link = node.left;
        steps_left -= 1;
    }
    first
}

/// The last entry.
pub(crate) fn last<K: Copy, V: Copy>(
    nodes: &[Node<K, V>],
    root: u32,
    steps: usize,
) -> Option<(K, V)>
    ensures last { IsLast nodes.now root steps result }
{
    let mut last = None;
    let mut link = root;
    let mut steps_left = steps;
    while steps_left > 0 {
        let Some(node) = node_at(nodes, link) else {
            return last;
        };
        last = Some((node.key, node.value));
        link = node.right;
        steps_left -= 1;
    }
    last
}

/// The first entry above a key.
pub(crate) fn next<K: Ordered, V: Copy>(
    nodes: &[Node<K, V>],
    root: u32,
    key: K,
    steps: usize,
) -> Option<(K, V)>
    ensures next { IsNext K.order nodes.now root key steps result }
{
    let mut next = None;
    let mut link = root;
    let mut steps_left = steps;
    while steps_left > 0 {
        let Some(node) = node_at(nodes, link) else {
            return next;
        };
        if key.compare(node.key).is_lt() {
            next = Some((node.key, node.value));
            link = node.left;
        } else {
            link = node.right;
        }
        steps_left -= 1;
    }
    next
}
