//! The rooms for the points that are counted.
use dilate_counts::DilateRoom;
use std::alloc::Global;
use std::marker::Model;

/// Rooms for the points of a dilate of a pair's polytope and of a dilate of its dual, which serve the partitions of one pair after the other. Contracts
/// see nothing of them.
#[derive(Drop)]
pub struct SideRooms {
    pub(crate) m: DilateRoom,
    pub(crate) n: DilateRoom,
}

impl Model for SideRooms {
    ghost use Rattle.std.specs.Prelude.{⊤};

    ghost Value = { Unit {0} };

    ghost view = { λ _. tt };

    ghost invariant = { λ _. ⊤ };
}

impl SideRooms {
    /// Rooms in which nothing is kept. They take no memory.
    pub fn new(alloc: Global) -> SideRooms {
        SideRooms {
            m: DilateRoom::new(alloc),
            n: DilateRoom::new(alloc),
        }
    }
}
