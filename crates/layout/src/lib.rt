// The stack of layers, the grid of tiles, and where each thing stands in the working numbers.
#![tactic(auto)]

ghost use Rattle.std.specs.Prelude.{◌≡◌, ℕ, ◌+◌, ◌-◌, ◌*◌, ◌^◌, ◌<◌, ◌≤◌, length, replicate};
ghost use Rattle.model.specs.Job.{runs as runs_in};
ghost use Rattle.model.specs.Limits.{most_layers, most_nets};
ghost use Rattle.model.specs.Lists.{up_from, bit, any, keep};
ghost use Rattle.model.specs.Read.{working_need};
ghost use Rattle.layout.specs.Dirs.{dirs_of, heading_number};
ghost use Rattle.layout.specs.Fill.{PartCleared};
ghost use Rattle.layout.specs.Shapes.{stack_of, ShapeOf, way_of, WayRoom};
ghost use Rattle.layout.specs.Areas.{loads_at, demand_at, flat_at, tiles_at, links_at, chosen_at, list_at, stops_at, above_at, engine_at};
ghost use Rattle.layout.specs.Table.{column_at, entries_in, dropped_in, table_size, low_in, score_in, score_put};

pub mod shape;

pub use shape::{Dirs, Heading, Shape};

// K layers. "Limits belong to the stack".
#[derive(Clone, Copy)]
pub struct Stack {
    pub layers: usize,
}

impl Stack {
    pub const LEAST: usize = 2;

    pub const MOST: usize = 8;

    // K layers, where a stack may have as many.
    pub fn new(k: usize) -> Option<Stack>
        ensures { result ≡ stack_of k }
    {
        if k < Stack::LEAST || Stack::MOST < k {
            return None;
        }
        Some(Stack { layers: k })
    }
}

impl Heading {
    // The number that the job text's directions have for it, 0 for east and 1 for north.
    pub fn number(self) -> u32
        ensures { result ≡ heading_number self }
    {
        match self {
            Heading::East => 0,
            Heading::North => 1,
        }
    }
}

// Whether a layer, counted from 0, runs the way of this number, that of a heading; without directions every layer does.
pub fn runs(d: Option<Dirs>, way: u32, layer: usize) -> bool
    requires { layer < most_layers }
    ensures { (k : ℕ) → layer < k → result ≡ runs_in (dirs_of k d) way (layer + 1) }
{
    match d {
        None => true,
        Some(dirs) => (dirs.north >> (layer as u32)) % 2 == way,
    }
}

// Whether some of k layers runs the way of the edges with this heading.
pub fn has_layer(d: Option<Dirs>, heading: Heading, k: usize) -> bool
    requires { (1 ≤ k) × (k ≤ most_layers) }
    ensures { result ≡ any (runs_in (dirs_of k d) (heading_number heading)) (up_from 1 k) }
{
    let Some(dirs) = d else {
        return true;
    };
    let full = 1u32 << (k as u32);
    let north = dirs.north % full;
    match heading {
        Heading::East => north + 1 < full,
        Heading::North => 0 < north,
    }
}

// How many of k layers run the way of this number, that of a heading.
pub fn layers_in(d: Option<Dirs>, way: u32, k: usize) -> usize
    requires { k ≤ most_layers }
    ensures value { result ≡ length (keep (runs_in (dirs_of k d) way) (up_from 1 k)) }
    ensures upper_bound { result ≤ k }
{
    let mut n = 0;
    for l in 0..k {
        n += usize::from(runs(d, way, l));
    }
    n
}

// The most tiles of a grid.
pub const TILES: usize = 4096;

// The shape of a grid of w × h tiles under this stack, whose layers run these ways.
pub fn shape_of(w: usize, h: usize, stack: Stack, dirs: Option<Dirs>) -> Shape
    requires { (1 ≤ w) × (w ≤ 64) × (1 ≤ h) × (h ≤ 64) × (2 ≤ stack.layers) × (stack.layers ≤ 8) }
    ensures { ShapeOf w h stack.layers dirs result }
{
    let east = (w - 1) * h;
    let north = w * (h - 1);
    let tiles = w * h;
    Shape {
        w,
        h,
        k: stack.layers,
        t: tiles,
        m: tiles,
        east,
        e: east + north,
        dirs,
    }
}

// How many working numbers a job needs.
pub fn need(g: Shape) -> usize
    ensures value { result ≡ working_need g.w g.h g.k }
    ensures upper_bound { result ≤ 300000 }
{
    2 * g.k * g.e + 2 * g.e + 32 * g.t
}

// The number of a tile inside the grid.
pub fn tile_at(g: Shape, x: usize, y: usize) -> usize
    requires x_lt_w { (x < g.w) × (y < g.h) }
    ensures { (result ≡ y * g.w + x) × (result < g.t) }
{
    y * g.w + x
}

// A way out of a tile: the tile that it leads to, and the number of its edge.
#[derive(Clone, Copy)]
pub struct Way {
    pub tile: usize,
    pub edge: usize,
}

// "The four ways out of a tile come in the order east, north, west, south": 0, 1, 2, 3. They are numbers, and no enum, since they are places of bits
// and the way back is d + 2.
pub fn way_out(g: Shape, t: usize, d: usize) -> Way
    requires way_room { WayRoom g t d }
    ensures { result ≡ way_of g t d }
{
    match d {
        0 => Way {
            tile: t + 1,
            edge: t - t / g.w,
        },
        1 => Way {
            tile: t + g.w,
            edge: g.east + t,
        },
        2 => Way {
            tile: t - 1,
            edge: t - 1 - t / g.w,
        },
        _ => Way {
            tile: t - g.w,
            edge: g.east + (t - g.w),
        },
    }
}

// ---- the working numbers: where each part starts

// The nets on each layer of each edge, K to an edge. The capacities stand likewise from 0 on.
pub fn loads_at(g: Shape) -> usize
    ensures value { result ≡ loads_at g }
    ensures upper_bound { result ≤ 64512 }
{
    g.k * g.e
}

// Where the K numbers of an edge start, in the capacities, and from there on in the loads.
pub fn edge_at(g: Shape, edge: usize) -> usize
    requires edge_lt_e { edge < g.e }
    ensures { (result ≡ edge * g.k) × (result + g.k ≤ loads_at g) }
{
    edge * g.k
}

// The flat demand of each edge; while nets are placed, the overflow that the edge has left.
pub fn demand_at(g: Shape) -> usize
    ensures value { result ≡ demand_at g }
    ensures upper_bound { result ≤ 129024 }
{
    2 * (g.k * g.e)
}

// The flat capacity of each edge.
pub fn flat_at(g: Shape) -> usize
    ensures value { result ≡ flat_at g }
    ensures upper_bound { result ≤ 137088 }
{
    demand_at(g) + g.e
}

// By tile: a stamp, the ways used and the pins of the net at hand.
pub fn tiles_at(g: Shape) -> usize
    ensures value { result ≡ tiles_at g }
    ensures upper_bound { result ≤ 145152 }
{
    flat_at(g) + g.e
}

// By tile: a stamp, and a lower tile that it is joined with.
pub fn links_at(g: Shape) -> usize
    ensures value { result ≡ links_at g }
    ensures upper_bound { result ≤ 149248 }
{
    tiles_at(g) + g.t
}

// By edge, 2 × T: the layer chosen for it.
pub fn chosen_at(g: Shape) -> usize
    ensures value { result ≡ chosen_at g }
    ensures upper_bound { result ≤ 153344 }
{
    links_at(g) + g.t
}

// The edges of the net at hand, in the order of its `edges` line, 2 × T.
pub fn list_at(g: Shape) -> usize
    ensures value { result ≡ list_at g }
    ensures upper_bound { result ≤ 161536 }
{
    chosen_at(g) + 2 * g.t
}

// By walk place: the tile.
pub fn stops_at(g: Shape) -> usize
    ensures value { result ≡ stops_at g }
    ensures upper_bound { result ≤ 169728 }
{
    list_at(g) + 2 * g.t
}

// By walk place: the edge above it.
pub fn above_at(g: Shape) -> usize
    ensures value { result ≡ above_at g }
    ensures upper_bound { result ≤ 173824 }
{
    stops_at(g) + g.m
}

// By walk place, 12 × m: the end of its branches, its pins, the legal layers and the layer of the edge above it, and 8 costs.
pub fn engine_at(g: Shape) -> usize
    ensures value { result ≡ engine_at g }
    ensures upper_bound { result ≤ 177920 }
{
    above_at(g) + g.m
}

// ---- the net table: a row of numbers for each net

// The numbers of a row.
const COLUMNS: usize = 6;

// The length of the table: a row for each of 4,096 nets.
pub const TABLE: usize = 24576;

// What the numbers of a net's row tell.
#[derive(Clone, Copy)]
pub enum Column {
    // The place in the text after `pins=`.
    Pins,
    // The place in the text after `edges=`.
    Edges,
    // In how many tiles the net's pins are.
    Tiles,
    // Of row i, the net whose turn is i, once the order list stands: it takes the place of the pins' tiles.
    Turn,
    // The place of the net's first layer in the answer list.
    First,
    // The entries of the `edges` line, and above 16 bits those that were dropped.
    Count,
    // The vias of the net, once it is placed.
    Vias,
}

impl Column {
    // Where its number stands in row i.
    pub fn at(self, i: usize) -> usize
        requires { i < most_nets }
        ensures value { result ≡ column_at self i }
        ensures upper_bound { result < table_size }
    {
        let row = COLUMNS * i;
        match self {
            Column::Pins => row,
            Column::Edges => row + 1,
            Column::Tiles | Column::Turn => row + 2,
            Column::First => row + 3,
            Column::Count => row + 4,
            Column::Vias => row + 5,
        }
    }
}

// ---- how many entries the `edges` line of a net has, and how many of them were dropped

pub fn entries_in(table: &[u32], i: usize) -> usize
    requires { (i < most_nets) × (table_size ≤ length table.now) }
    ensures { (result ≡ entries_in table.now i) × (result < 65536) }
{
    table[Column::Count.at(i)] as usize % 65536
}

pub fn dropped_in(table: &[u32], i: usize) -> usize
    requires { (i < most_nets) × (table_size ≤ length table.now) }
    ensures { (result ≡ dropped_in table.now i) × (result < 65536) }
{
    table[Column::Count.at(i)] as usize / 65536
}

// ---- until a net is placed, its lowest wanted layer stands in the last four bits of the place of its vias, 0 where it has no line `low`

pub fn low_in(table: &[u32], i: usize) -> u32
    requires { (i < most_nets) × (table_size ≤ length table.now) }
    ensures value { result ≡ low_in table.now i }
    ensures upper_bound { result < 16 }
{
    table[Column::Vias.at(i)] % 16
}

// ---- the score of a net, from when it is known to when the order list stands: its halves take the places of the pins' tiles and of the vias

pub fn score_in(table: &[u32], i: usize) -> u64
    requires { (i < most_nets) × (table_size ≤ length table.now) }
    ensures { result ≡ score_in table.now i }
{
    let low = u64::from(table[Column::Tiles.at(i)]);
    let high = u64::from(table[Column::Vias.at(i)] / 16);
    low + 4294967296 * high
}

pub fn put_score(table: &mut [u32], i: usize, v: u64)
    requires { (i < most_nets) × (table_size ≤ length table.old) × (v < 2 ^ 60) }
    ensures { table.new ≡ score_put table.old i v }
{
    let wanted = low_in(table, i);
    let high = (v / 4294967296) as u32;
    table[Column::Tiles.at(i)] = (v % 4294967296) as u32;
    table[Column::Vias.at(i)] = wanted + 16 * high;
}

// ---- zeros

// Zeroes the whole slice.
pub fn clear(w: &mut [u32])
    ensures { w.new ≡ replicate (length w.old) 0 }
{
    w.fill(0);
}

// Zeroes the numbers from `from` up to `to`.
pub fn clear_part(w: &mut [u32], from: usize, to: usize)
    requires { (from ≤ to) × (to ≤ length w.old) }
    ensures { PartCleared from to w.old w.new }
{
    w[from..to].fill(0);
}
