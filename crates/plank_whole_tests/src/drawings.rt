//! Pictures drawn as a few nodes and names for some of them. Nodes without a name lie outside.
use plank_parts::{CODES, Shape, part_of};
use plank_pic::{Part, Place, Term};
use plank_prog::Header;
use plank_whole::Picture;

/// Places in the order of keys.
pub const MIN: u8 = 0;

pub const MAX: u8 = 9;

/// Whose a node is, or a lock.
#[derive(Clone, Copy, PartialEq, Eq)]
pub enum Owner {
    Nobody,
    Own,
    Other,
    Third,
}

/// A node: its key, what its pointers lead to, and what is said of it.
#[derive(Clone, Copy)]
pub struct Node {
    pub key: u8,
    /// The number of another node, or null.
    pub ways: [Option<u8>; 2],
    pub marked: bool,
    pub visited: bool,
    /// Nobody's nodes are shared.
    pub owner: Owner,
    pub lock: Owner,
}

/// A shared node that walks visit.
pub fn shared(key: u8, way: Option<u8>) -> Node {
    Node {
        key,
        ways: [way, None],
        marked: false,
        visited: true,
        owner: Owner::Nobody,
        lock: Owner::Nobody,
    }
}

impl Node {
    pub fn marked(self) -> Node {
        Node {
            marked: true,
            ..self
        }
    }

    pub fn unvisited(self) -> Node {
        Node {
            visited: false,
            ..self
        }
    }

    /// A node that this thread has made, and that no walk visits.
    pub fn made_by(self, owner: Owner) -> Node {
        Node {
            owner,
            visited: false,
            ..self
        }
    }

    pub fn locked_by(self, lock: Owner) -> Node {
        Node { lock, ..self }
    }

    pub fn or_to(self, other: u8) -> Node {
        Node {
            ways: [self.ways[0], Some(other)],
            ..self
        }
    }
}

/// A stop node for each of the walked keys, which all chains have.
#[derive(Clone, Copy)]
pub struct Stop {
    pub key: u8,
    pub visited: bool,
}

/// The place of the walked keys, which are alike.
pub const KEY: u8 = 4;

/// A picture.
#[derive(Clone, Copy)]
pub struct Drawing {
    pub nodes: [Node; 4],
    /// The node that each name names, or null; and how many names there are.
    pub names: [Option<u8>; 5],
    pub count: u8,
    /// Whether the walked keys are in the set.
    pub in_set: bool,
    /// Whether the own call has changed it.
    pub spent: bool,
    /// The two ends of each chain between two nodes; one from a node to itself adds nothing.
    pub chains: [(u8, u8); 2],
    pub stop: Option<Stop>,
}

/// Three nodes and a name for each, the first the root's. The keys are not in the set.
pub fn three(first: Node, second: Node, third: Node) -> Drawing {
    Drawing {
        nodes: [first, second, third, third],
        names: [Some(0), Some(1), Some(2), None, None],
        count: 3,
        in_set: false,
        spent: false,
        chains: [(0, 0), (0, 0)],
        stop: None,
    }
}

/// The picture that docs/PICTURES.md reads aloud: a marked node, and its chain's end, to which nodes
/// without a name lead.
pub fn read_aloud() -> Drawing {
    three(
        shared(MIN, Some(1)),
        shared(2, Some(3)).marked(),
        shared(6, None),
    )
    .chained()
}

fn is_end(chain: (u8, u8), from: u8, to: u8) -> bool {
    chain.0 == from && chain.1 == to
}

impl Drawing {
    pub fn named(self, count: u8, names: [Option<u8>; 5]) -> Drawing {
        Drawing {
            count,
            names,
            ..self
        }
    }

    pub fn in_set(self) -> Drawing {
        Drawing {
            in_set: true,
            ..self
        }
    }

    pub fn spent(self) -> Drawing {
        Drawing {
            spent: true,
            ..self
        }
    }

    /// A chain from the second node to the third.
    pub fn chained(self) -> Drawing {
        Drawing {
            chains: [(1, 2), (0, 0)],
            ..self
        }
    }

    pub fn stopping(self, key: u8) -> Drawing {
        Drawing {
            stop: Some(Stop { key, visited: true }),
            ..self
        }
    }

    // Whether one of the chains leads from one node to another.
    fn is_among(&self, from: u8, to: u8) -> bool {
        is_end(self.chains[0], from, to) || is_end(self.chains[1], from, to)
    }

    // The number of the node that a name names.
    fn number(&self, name: u8) -> Option<u8> {
        if name >= self.count {
            return None;
        }
        self.names.get(name as usize).copied().unwrap_or(None)
    }

    fn node(&self, name: u8) -> Option<Node> {
        self.nodes.get(self.number(name)? as usize).copied()
    }

    // Where a pointer leads.
    fn way(&self, at: Place) -> Option<u8> {
        self.node(at.name)?
            .ways
            .get(at.pointer as usize)
            .copied()
            .unwrap_or(None)
    }

    fn has_name(&self, number: u8) -> bool {
        for name in 0..self.count {
            if self.number(name) == Some(number) {
                return true;
            }
        }
        false
    }

    // The outside node that a pointer leads to.
    fn outside(&self, at: Place) -> Option<u8> {
        let way = self.way(at)?;
        if self.has_name(way) { None } else { Some(way) }
    }

    fn stop(&self, slot: u8) -> Option<Stop> {
        if slot == 0 { self.stop } else { None }
    }

    fn place(&self, term: Term) -> u8 {
        match term {
            Term::Node(name) => match self.node(name) {
                Some(node) => node.key,
                None => MIN,
            },
            Term::Min => MIN,
            Term::Max => MAX,
            Term::Walked(_) => KEY,
            Term::Stop { slot, .. } => match self.stop(slot) {
                Some(stop) => stop.key,
                None => MIN,
            },
        }
    }

    fn is_chain(&self, from: u8, to: u8) -> bool {
        match (self.number(from), self.number(to)) {
            (Some(from), Some(to)) => from == to || self.is_among(from, to),
            _ => false,
        }
    }

    fn picks(&self, from: u8, to: u8, slot: u8) -> bool {
        match (self.number(from), self.number(to), self.stop(slot)) {
            (Some(from), Some(to), Some(_)) => self.is_among(from, to),
            _ => false,
        }
    }

    // What is said of a node alone.
    fn says_of_node(&self, node: Node, part: Part) -> bool {
        match part {
            Part::Flag { .. } => node.marked,
            Part::Shared { .. } => node.owner == Owner::Nobody,
            Part::Mine { .. } => node.owner == Owner::Own,
            Part::Locked { .. } => node.lock != Owner::Nobody,
            Part::LockMine { .. } => node.lock == Owner::Own,
            Part::LockOthers { .. } => node.lock == Owner::Other,
            Part::Visits { .. } => node.visited,
            _ => false,
        }
    }

    fn says(&self, part: Part) -> bool {
        match part {
            Part::Null { name } => self.node(name).is_none(),
            Part::Same { left, right } => {
                self.node(left).is_some() && self.number(left) == self.number(right)
            }
            Part::Flag { name, .. }
            | Part::Shared { name }
            | Part::Mine { name }
            | Part::Locked { name }
            | Part::LockMine { name }
            | Part::LockOthers { name }
            | Part::Visits { name, .. } => match self.node(name) {
                Some(node) => self.says_of_node(node, part),
                None => false,
            },
            Part::PointerNull { at } => self.node(at.name).is_some() && self.way(at).is_none(),
            Part::Beyond { at } => self.outside(at).is_some(),
            Part::Leads { at, to } => self.way(at).is_some() && self.way(at) == self.number(to),
            Part::SameBeyond { left, right } => {
                self.outside(left).is_some() && self.outside(left) == self.outside(right)
            }
            Part::AtMost { left, right } => self.place(left) <= self.place(right),
            Part::InSet { .. } => self.in_set,
            Part::Spent => self.spent,
            Part::Chain { from, to } => self.is_chain(from, to),
            Part::Picks { from, to, slot, .. } => self.picks(from, to, slot),
            Part::StopFlag { slot, .. } => self.stop(slot).is_some(),
            Part::StopVisited { slot, .. } => match self.stop(slot) {
                Some(stop) => stop.visited,
                None => false,
            },
        }
    }

    /// The picture, with this name of the root.
    pub fn of<'a>(&self, header: &'a Header, root: Option<u8>) -> Option<Picture<'a>> {
        let names = self.count;
        if names > 16 || header.pointers.len() > 2 || header.flags.len() > 32 {
            return None;
        }
        let mut picture = Picture::new(Shape {
            header,
            names,
            root,
        });
        for code in 0..CODES {
            let part = part_of(code);
            if self.says(part) {
                picture.put(part);
            }
        }
        Some(picture)
    }
}
