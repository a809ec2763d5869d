use plank_pic::KeyName;

/// A key, a node that it may visit, and the node to which the written node's edge led, both by name.
#[derive(Clone, Copy, Debug, PartialEq, Eq)]
pub struct Way {
    pub key: KeyName,
    pub name: u8,
    pub out: u8,
}
