// A tape's write ring, and what stands for it on other units: a unit is written only with the ring in.
#[derive(Clone, Copy, PartialEq, Eq, Debug)]
pub enum Ring {
    In,
    Out,
}

// How a unit stands: the blocks that it has room for, those it has, its position and its ring.
#[derive(Clone, Copy, PartialEq, Eq, Debug)]
pub struct Standing {
    pub capacity: u16,
    pub blocks: u16,
    pub position: u16,
    pub ring: Ring,
}
