use rf_text::{Items, Text};

/// A class. Its number is its place in the problem's list of classes, from 0.
#[derive(Debug, Drop)]
pub struct Class {
    pub name: Text,
    /// Whether no node may have exactly this class.
    pub is_abstract: bool,
    /// Whether it is an enum: its literals have it, and no other node has.
    pub is_enum: bool,
    /// The numbers of the classes that it extends directly, in the order of the text.
    pub supers: Items<u32>,
}
