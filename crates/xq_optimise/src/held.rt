//! What is known of the value of a slot.

/// What a slot holds.
#[derive(Clone, Copy, Debug, PartialEq, Eq)]
pub enum Held {
    /// Nodes alone, or nothing.
    Nodes,
    /// A node, or nothing.
    Node,
    /// Strings and untyped values alone, or nothing.
    Texts,
    /// A string or an untyped value, or nothing.
    Text,
    /// An item, or nothing.
    Item,
    Anything,
}
