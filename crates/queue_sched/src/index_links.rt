//! Disjoint lists of nodes that are named by number, each a doubly linked list over vectors: a node is taken out in a
//! constant number of steps, and only making room takes memory.

mod links;

pub use links::Links;
