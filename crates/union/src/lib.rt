// Union-find over the tiles of the net at hand, in a slice that the caller lends: one word to a tile, its stamp times 4,096 and the tile's parent.
// A word of another stamp is a tile that is its own parent, so nothing is cleared between nets.
#![tactic(auto)]

ghost use Rattle.std.specs.Prelude.{◌≡◌, ◌+◌, ◌*◌, ◌<◌, ◌≤◌, min, max, length, set};
ghost use Rattle.layout.specs.Areas.{links_at, chosen_at, links_of};
ghost use Rattle.layout.specs.Parts.{Outside};
ghost use Rattle.layout.specs.Bounds.{most_tiles};
ghost use Rattle.marks.specs.Words.{most_stamp, stamp_unit};
ghost use Rattle.union.specs.Links.{parent_in, Links, Found, Merged};

use layout::Shape;

// A parent is a number below this one, and its stamp stands above it, as in a word of marks.
const STAMP: usize = 4096;

fn parent(a: &[u32], stamp: usize, x: usize) -> usize
    requires { x < length a.now }
    ensures { result ≡ parent_in stamp a.now x }
{
    let w = a[x] as usize;
    if w / STAMP == stamp { w % STAMP } else { x }
}

fn put(a: &mut [u32], stamp: usize, x: usize, p: usize)
    requires { (stamp ≤ most_stamp) × (x < length a.old) × (p < stamp_unit) }
    ensures { a.new ≡ set a.old x (stamp * stamp_unit + p) }
{
    a[x] = (stamp * STAMP + p) as u32;
}

// The root of tile x. On the way each tile goes to its parent's parent, which changes no root.
pub fn root(a: &mut [u32], stamp: usize, x: usize) -> usize
    requires { (stamp ≤ most_stamp) × (length a.old ≤ most_tiles) × (x < length a.old) × Links stamp a.old }
    ensures { Found stamp a.old x a.new result }
{
    let mut t = x;
    // not a `for`: it goes from a tile to one above it, until it is at the root
    loop {
        let p = parent(a, stamp, t);
        if p == t {
            return t;
        }
        let q = parent(a, stamp, p);
        put(a, stamp, t, q);
        t = q;
    }
}

// Joins two roots: the larger goes below the smaller.
pub fn link(a: &mut [u32], stamp: usize, p: usize, q: usize)
    requires { (stamp ≤ most_stamp) × (length a.old ≤ most_tiles) × (p < length a.old) × (q < length a.old) }
    ensures { a.new ≡ set a.old (max p q) (stamp * stamp_unit + min p q) }
{
    if p < q {
        put(a, stamp, q, p);
    } else {
        put(a, stamp, p, q);
    }
}

// Joins tiles x and y. Whether they were apart.
#[inline(always)]
pub fn join(a: &mut [u32], stamp: usize, x: usize, y: usize) -> bool
    requires { (stamp ≤ most_stamp) × (length a.old ≤ most_tiles) × (x < length a.old) × (y < length a.old) × Links stamp a.old }
    ensures { Merged stamp a.old x y a.new result }
{
    let p = root(a, stamp, x);
    let q = root(a, stamp, y);
    if p == q {
        return false;
    }
    link(a, stamp, p, q);
    true
}

// Joins the two tiles of an edge, whose links are a part of the working numbers. Whether they were apart. Two crates call it,
// and it is put into the loop that reads each line first all the same, where a call costs a whole job 5 %.
#[inline(always)]
pub fn put_join(w: &mut [u32], g: Shape, stamp: u32, here: usize, there: usize) -> bool
    requires g_in_bounds { (chosen_at g ≤ length w.old) × (here < g.t) × (there < g.t) × (stamp ≤ most_stamp) × Links stamp (links_of g w.old) }
    ensures merged { Merged stamp (links_of g w.old) here there (links_of g w.new) result }
    ensures outside { Outside (links_at g) g.t w.old w.new }
{
    let from = layout::links_at(g);
    let to = layout::chosen_at(g);
    join(&mut w[from..to], stamp as usize, here, there)
}
