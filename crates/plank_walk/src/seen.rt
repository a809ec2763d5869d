use plank_pic::KeyName;

/// What a condition is asked of, on a walked key.
#[derive(Clone, Copy, PartialEq, Eq, Debug)]
pub enum Seen {
    /// A named node.
    Node {
        key: KeyName,
        name: u8,
    },
    /// The stop node of a slot of `key`, on the walked key `on`. Where it is not said whether that
    /// walk visits it, the bit is that of its own key.
    Stop {
        key: KeyName,
        slot: u8,
        on: KeyName,
        visited: Option<bool>,
    },
}
