// The head of a job text: the lines from `width` through `nets`, with the capacities stored in the working numbers.
#![tactic(auto)]

ghost use Rattle.std.specs.Prelude.{◌≡◌, ◌+◌, ◌<◌, ◌≤◌, length};
ghost use Rattle.model.specs.Read.{working_need};
ghost use Rattle.theory.specs.links.JobText.{stack_line};
ghost use Rattle.layout.specs.Dirs.{dirs_of};
ghost use Rattle.layout.specs.Shapes.{sizes_of};
ghost use Rattle.text.specs.Refusals.{place_of};
ghost use Rattle.lines.specs.Told.{field_told};
ghost use Rattle.head.specs.Reads.{ways_in, stack_in, sizes_in, weights_in, nets_in, body_in, head_in};
ghost use Rattle.head.specs.Told.{sizes_told, sizes_hold, weights_told, weights_hold, nets_hold, head_told, head_holds};

use layout::{Shape, Stack};
use text::{Cursor, Fault, Refusal};

// "W = width and H = height, 1 to 64"
const LEAST_SIDE: usize = 1;

const MOST_SIDE: usize = 64;

// "alpha, beta, gamma: 0 to 255"
const MOST_WEIGHT: usize = 255;

// "nets: N, 0 to 4,096"
const MOST_NETS: usize = 4096;

// "text above 1,048,576 bytes"
const MOST_TEXT: usize = 1048576;

// The weights of a job's scores.
#[derive(Clone, Copy)]
pub struct Weights {
    pub alpha: usize,
    pub beta: usize,
    pub gamma: usize,
}

// What the head of a job says, but for the capacities.
#[derive(Clone, Copy)]
pub struct Head {
    pub shape: Shape,
    pub weights: Weights,
    pub nets: usize,
}

// Each of these functions reads from a line's place on, and answers with what its lines say and the place of the next line, or with the job's refusal.

// The line `dirs`, where it stands behind `layers`.
fn read_ways(
    s: &[u8],
    c: Cursor,
    w: usize,
    h: usize,
    stack: Stack,
) -> Result<(Shape, Cursor), Refusal>
    requires at_in_bounds { (c.at ≤ length s.now) × (c.line < 100) }
    requires le_w { (1 ≤ w) × (w ≤ 64) × (1 ≤ h) × (h ≤ 64) × (2 ≤ stack.layers) × (stack.layers ≤ 8) }
    ensures result_value { sizes_told s.now result ≡ ways_in w h stack.layers (place_of s.now c) }
    ensures sizes_hold { sizes_hold (length s.now) c.line result }
{
    let (ways, d) = dirs::read_dirs(s, c, stack.layers)?;
    Ok((layout::shape_of(w, h, stack, ways), d))
}

// The line `layers`, after `width` and `height`.
fn read_stack(s: &[u8], c: Cursor, w: usize, h: usize) -> Result<(Shape, Cursor), Refusal>
    requires at_in_bounds { (c.at ≤ length s.now) × (c.line < 50) }
    requires le_w { (1 ≤ w) × (w ≤ 64) × (1 ≤ h) × (h ≤ 64) }
    ensures result_value { sizes_told s.now result ≡ stack_in w h (place_of s.now c) }
    ensures sizes_hold { sizes_hold (length s.now) (c.line + 1) result }
{
    let (k, d) = lines::number_line(s, c, b"layers=")?;
    let stack = Stack::new(k).ok_or(Refusal::Line(Fault::Range, d.line))?;
    read_ways(s, d, w, h, stack)
}

// The lines `width`, `height` and `layers`, and `dirs` where it stands.
fn read_sizes(s: &[u8], c: Cursor) -> Result<(Shape, Cursor), Refusal>
    requires { (c.at ≤ length s.now) × (c.line < 40) }
    ensures result_value { sizes_told s.now result ≡ sizes_in (place_of s.now c) }
    ensures sizes_hold { sizes_hold (length s.now) (c.line + 3) result }
{
    let (w, d) = lines::ranged(s, c, b"width=", LEAST_SIDE, MOST_SIDE)?;
    let (h, e) = lines::ranged(s, d, b"height=", LEAST_SIDE, MOST_SIDE)?;
    read_stack(s, e, w, h)
}

// The lines `alpha`, `beta` and `gamma`.
fn read_weights(s: &[u8], c: Cursor) -> Result<(Weights, Cursor), Refusal>
    requires { (c.at ≤ length s.now) × (c.line < 100) }
    ensures result_value { weights_told s.now result ≡ weights_in (place_of s.now c) }
    ensures weights_hold { weights_hold (length s.now) (c.line + 3) result }
{
    let (alpha, d) = lines::ranged(s, c, b"alpha=", 0, MOST_WEIGHT)?;
    let (beta, e) = lines::ranged(s, d, b"beta=", 0, MOST_WEIGHT)?;
    let (gamma, f) = lines::ranged(s, e, b"gamma=", 0, MOST_WEIGHT)?;
    Ok((Weights { alpha, beta, gamma }, f))
}

// The line `nets`.
fn nets_line(s: &[u8], c: Cursor, order: usize) -> Result<(usize, Cursor), Refusal>
    requires { (c.at ≤ length s.now) × (c.line < 100) }
    ensures result_value { field_told s.now result ≡ nets_in order (place_of s.now c) }
    ensures nets_hold { nets_hold (length s.now) (c.line + 1) order result }
{
    let (n, d) = lines::ranged(s, c, b"nets=", 0, MOST_NETS)?;
    if order < n {
        return Err(Refusal::Order(d.line));
    }
    Ok((n, d))
}

// The lines after `layers` and `dirs`, where the working numbers are as many as the job needs.
fn read_body(
    s: &[u8],
    c: Cursor,
    w: &mut [u32],
    order: usize,
    g: Shape,
) -> Result<(Head, Cursor), Refusal>
    requires at_in_bounds { (c.at ≤ length s.now) × (c.line ≡ stack_line (dirs_of g.k g.dirs)) }
    requires k_in_bounds { working_need g.w g.h g.k ≤ length w.old }
    ensures result_after { head_told s.now w.new result ≡ body_in (sizes_of g) order (place_of s.now c) }
    ensures head_holds { head_holds (length s.now) order w.old w.new result }
    ensures w_len_unchanged { length w.new ≡ length w.old }
{
    let (weights, d) = read_weights(s, c)?;
    let e = capacities::all_layers(s, d, w, g)?;
    let (nets, f) = nets_line(s, e, order)?;
    let head = Head {
        shape: g,
        weights,
        nets,
    };
    Ok((head, f))
}

// The head of the text s, with the capacities stored in w: edge e's on layer l at e * K + (l - 1). `order` is the length of the lent order list.
pub fn read_head(s: &[u8], w: &mut [u32], order: usize) -> Result<(Head, Cursor), Refusal>
    ensures result_after { head_told s.now w.new result ≡ head_in (length s.now) (length w.old) order (record { line = 0; rest = s.now }) }
    ensures head_holds { head_holds (length s.now) order w.old w.new result }
    ensures w_len_unchanged { length w.new ≡ length w.old }
{
    if MOST_TEXT < s.len() {
        return Err(Refusal::TooLong);
    }
    let (g, c) = read_sizes(s, Cursor { at: 0, line: 0 })?;
    if w.len() < layout::need(g) {
        return Err(Refusal::Working(c.line));
    }
    read_body(s, c, w, order, g)
}
