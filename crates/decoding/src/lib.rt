// The decoding of an accepted row, over the search: the first best word, its metric and the soft outputs. `decode_accepted` is for the crates above, which
// know that nothing is refused; how the search goes is no part of its promise.
#![tactic(auto)]

ghost use Rattle.std.specs.Prelude.{◌≡◌, ◌*◌, ◌≤◌, length, take};
ghost use Rattle.code.specs.Code.{is_codeword};
ghost use Rattle.metric.specs.Metric.{Decoded};
ghost use Rattle.tails.specs.Tails.{columns};
ghost use Rattle.gather.specs.Gather.{key_cost, Scattered};
ghost use Rattle.walk.specs.Walk.{Marginals};
ghost use Rattle.pass.specs.Pass.{Pass, Passed};
ghost use Rattle.softs.specs.Softs.{Softened};
ghost use Rattle.search.specs.Within.{cap, Input, Roomy, Sizes, Tabled, Cheap, Walked, Laid, slots_of, steps_of, turns_of};
ghost use Rattle.decoding.specs.Within.{Softs, TablesRoom, Rooms, OthersRoom, Found, SoftenRoom, Outputs, Accepted};

use code::Shape;
use coset::FourLayers;
use search::Best;

// The tables of a row. The tails take their turn in the first part of g.
fn tabulate(
    shape: Shape,
    row: &[i16],
    hs: &[u16],
    zs: &mut [u32],
    os: &mut [u32],
    t: &mut [u32],
    g: &mut [u16],
    scratch: &mut [i32],
)
    requires input { Input shape row.now }
    requires columns { hs.now ≡ columns shape.m shape.r }
    requires tables_room { TablesRoom shape zs.old os.old t.old g.old scratch.old }
    ensures { Tabled shape row.now hs.now zs.new os.new t.new scratch.new }
{
    let states = shape.size * 4;
    search::of_row(shape, row, hs, zs, os, t, &mut g[..states], scratch);
}

// The walk over the tables. The costs of the places take their turn in the first part of f, and the marginals in that of g.
fn walk_over(shape: Shape, t: &[u32], places: &mut [u16], f: &mut [u16], g: &mut [u16]) -> Best
    requires cheap { Cheap (key_cost t.now) (length t.now) }
    requires rooms { Rooms shape t.now places.old f.old g.old }
    ensures { Walked shape t.now places.new (take (length places.old) f.new) (take (length places.old) g.new) result.total result.words }
{
    let count = places.len();
    search::best_of(shape, t, places, &mut f[..count], &mut g[..count])
}

// What the other layers cost at the least, for each layer and coset, in place of the costs of the places. The marginals are used up.
fn others(states: usize, places: &[u16], f: &mut [u16], g: &mut [u16])
    requires { OthersRoom states places.now f.old g.old }
    ensures { Scattered cap (take (length places.now) f.old) (take (length places.now) g.old) places.now (take states f.new) }
{
    let count = places.len();
    gather::scatter(f, &mut g[..count], places, states, search::CAP);
}

// The soft pass, over the first part of f. The tables behind the columns take their turn in the first part of g.
fn soft_costs(
    layers: FourLayers,
    f: &mut [u16],
    g: &mut [u16],
    scratch: &[i32],
    zero: &mut [u16],
    one: &mut [u16],
)
    requires rooms { (layers.size * 4 ≤ length f.old) × (layers.size * 4 ≤ length g.old) }
    requires pass { Pass layers.q layers.size cap (take (layers.size * 4) f.old) (take (layers.size * 4) g.old) layers.hs.now layers.zs.now layers.os.now scratch.now zero.old one.old }
    ensures with_zero { Passed layers.entry.size cap (take (layers.entry.size * 4) f.old) layers.entry.hs.now layers.entry.zs.now layers.entry.os.now 0 (length layers.entry.hs.now) zero.new }
    ensures with_one { Passed layers.entry.size cap (take (layers.entry.size * 4) f.old) layers.entry.hs.now layers.entry.zs.now layers.entry.os.now 1 (length layers.entry.hs.now) one.new }
{
    let states = layers.size * 4;
    pass::pass(
        &mut f[..states],
        &mut g[..states],
        scratch,
        layers,
        search::CAP,
        zero,
        one,
    );
}

// The search: the tables, the walk, and the word.
fn find_word(
    shape: Shape,
    row: &[i16],
    hs: &[u16],
    zs: &mut [u32],
    os: &mut [u32],
    t: &mut [u32],
    places: &mut [u16],
    f: &mut [u16],
    g: &mut [u16],
    word: &mut [u8],
    scratch: &mut [i32],
) -> u16
    requires input { Input shape row.now }
    requires columns { hs.now ≡ columns shape.m shape.r }
    requires tables_room { TablesRoom shape zs.old os.old t.old g.old scratch.old }
    requires rooms { Rooms shape t.old places.old f.old g.old × (length word.old ≡ shape.n) }
    ensures { Found shape row.now hs.now zs.new os.new t.new places.new f.new g.new scratch.new word.new result }
{
    tabulate(shape, row, hs, zs, os, t, g, scratch);
    let best = walk_over(shape, t, places, f, g);
    let words = best.words;
    search::write_word(words, word);
    best.total
}

// The soft outputs, from what the search left. Costs and marginals are used up.
fn soften(
    shape: Shape,
    row: &[i16],
    hs: &[u16],
    zs: &[u32],
    os: &[u32],
    t: &[u32],
    places: &[u16],
    f: &mut [u16],
    g: &mut [u16],
    scratch: &[i32],
    zero: &mut [u16],
    one: &mut [u16],
    soft: &mut [i16],
)
    requires input { Input shape row.now }
    requires tabled { Tabled shape row.now hs.now zs.now os.now t.now scratch.now }
    requires laid { Laid shape (key_cost t.now) places.now (take (length places.now) f.old) }
    requires marginals { Marginals (turns_of shape) cap (take (length places.now) f.old) (slots_of shape) (steps_of shape) (take (length places.now) g.old) }
    requires soften_room { SoftenRoom shape places.now f.old g.old scratch.now zero.old one.old soft.old }
    ensures softs { Softs shape row.now zero.new one.new }
    ensures softened { Softened shape.m zero.new one.new shape.n soft.old soft.new }
{
    others(shape.size * 4, places, f, g);
    let layers = FourLayers {
        q: shape.q,
        size: shape.size,
        hs,
        zs,
        os,
    };
    soft_costs(layers, f, g, scratch, zero, one);
    softs::soft_rows(shape.m, shape.n, zero, one, soft);
}

// A decoding, with every buffer lent. Marginals, tails and the tables behind the columns take turns in g; the costs of the places and what the others cost
// in f.
// The slices stand apart, and in no struct: of a `&mut` field that is lent as `&` a proof knows the length alone afterwards.
fn decode_with(
    shape: Shape,
    row: &[i16],
    hs: &[u16],
    zs: &mut [u32],
    os: &mut [u32],
    t: &mut [u32],
    places: &mut [u16],
    f: &mut [u16],
    g: &mut [u16],
    zero: &mut [u16],
    one: &mut [u16],
    word: &mut [u8],
    soft: &mut [i16],
    scratch: &mut [i32],
) -> i32
    requires input { Input shape row.now }
    requires columns { hs.now ≡ columns shape.m shape.r }
    requires rooms { Rooms shape t.old places.old f.old g.old }
    requires outputs { Outputs shape zs.old os.old zero.old one.old word.old soft.old scratch.old }
    ensures { Decoded shape.m (is_codeword shape.m shape.r) row.now word.new result soft.new }
{
    let least = find_word(shape, row, hs, zs, os, t, places, f, g, word, scratch);
    soften(
        shape, row, hs, zs, os, t, places, f, g, scratch, zero, one, soft,
    );
    softs::minus(search::weight(row), 2 * (least as u32))
}

// With the rooms for tables and places lent, which may be longer than the code needs.
fn decode_in(
    shape: Shape,
    row: &[i16],
    t: &mut [u32],
    places: &mut [u16],
    f: &mut [u16],
    g: &mut [u16],
    word: &mut [u8],
    soft: &mut [i16],
    scratch: &mut [i32],
) -> i32
    requires accepted { Accepted shape row.now (length word.old) (length soft.old) (length scratch.old) }
    requires roomy { Roomy shape t.old places.old f.old g.old }
    ensures { Decoded shape.m (is_codeword shape.m shape.r) row.now word.new result soft.new }
{
    let columns = spots::columns(shape.m, shape.r);
    let mut zs = [0u32; 60];
    let mut os = [0u32; 60];
    let mut zero = [0u16; 60];
    let mut one = [0u16; 60];
    let n = shape.n;
    let wide = n * 4;
    let states = shape.size * 4;
    let count = search::places_of(shape);
    decode_with(
        shape,
        row,
        &columns[..n],
        &mut zs[..wide],
        &mut os[..wide],
        &mut t[..states],
        &mut places[..count],
        f,
        g,
        &mut zero[..wide],
        &mut one[..wide],
        word,
        soft,
        scratch,
    )
}

// The same with rooms for so many entries of a table, and for so many places. They are filled; nothing reads them before they are written.
fn decode_sized<const STATES: usize, const PLACES: usize>(
    shape: Shape,
    row: &[i16],
    word: &mut [u8],
    soft: &mut [i16],
    scratch: &mut [i32],
) -> i32
    requires accepted { Accepted shape row.now (length word.old) (length soft.old) (length scratch.old) }
    requires sizes { Sizes shape STATES PLACES }
    ensures { Decoded shape.m (is_codeword shape.m shape.r) row.now word.new result soft.new }
{
    let mut t = [search::CAP as u32; STATES];
    let mut places = [search::CAP; PLACES];
    let mut f = [search::CAP; PLACES];
    let mut g = [search::CAP; PLACES];
    decode_in(
        shape,
        row,
        &mut t,
        &mut places,
        &mut f,
        &mut g,
        word,
        soft,
        scratch,
    )
}

// A decoding of an accepted call, which leaves in the scratch what it does. The rooms are of the size that its code needs: making the largest would cost
// the smallest code as much as its search.
pub fn decode_accepted(
    shape: Shape,
    row: &[i16],
    word: &mut [u8],
    soft: &mut [i16],
    scratch: &mut [i32],
) -> i32
    requires { Accepted shape row.now (length word.old) (length soft.old) (length scratch.old) }
    ensures { Decoded shape.m (is_codeword shape.m shape.r) row.now word.new result soft.new }
{
    let count = search::places_of(shape);
    if count <= 64 && shape.size <= 16 {
        decode_sized::<64, 64>(shape, row, word, soft, scratch)
    } else if count <= 336 {
        decode_sized::<256, 336>(shape, row, word, soft, scratch)
    } else {
        decode_sized::<4096, 4096>(shape, row, word, soft, scratch)
    }
}
