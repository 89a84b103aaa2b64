// The grid of tiles and the stack of layers, with all the numbers that follow from their sizes.
ghost use Rattle.layout.specs.Bounds.{Bounded};

// Where an edge goes from its tile: it has the layers that run so.
#[derive(Clone, Copy, Debug, PartialEq, Eq)]
pub enum Heading {
    East,
    North,
}

// Which way each layer runs: bit l - 1 of `north` is set where layer l runs north, and clear where it runs east.
#[derive(Clone, Copy, Debug, PartialEq, Eq)]
pub struct Dirs {
    pub north: u32,
}

// W, H and K; T tiles, room for m places of a walk, the edges that go east, and E edges in all; which way the layers run, where the job says it.
#[derive(Clone, Copy)]
pub struct Shape {
    pub w: usize,
    pub h: usize,
    pub k: usize,
    pub t: usize,
    pub m: usize,
    pub east: usize,
    pub e: usize,
    pub dirs: Option<Dirs>,
    pub ghost shaped: { Bounded w h k t m east e },
}
