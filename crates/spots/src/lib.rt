// Where the walk of a code goes: columns, slots and steps as constants chosen by m and r, and the entry of a table that each place stands for. Its
// functions are for the search; their promises cite specs/Spots.antt and the crate tails.
#![tactic(auto)]

ghost use Rattle.std.specs.Prelude.{◌≡◌, true, ◌+◌, ◌*◌, ◌^◌, ◌<◌, length, get_or, take};
ghost use Rattle.code.specs.Code.{accepted, long, syndrome_long};
ghost use Rattle.tails.specs.Tails.{columns, turns};
ghost use Rattle.walk.specs.Walk.{start};
ghost use Rattle.spots.specs.Spots.{slots, all_steps, round, Placed};
ghost use Rattle.spots.specs.Filling.{all_place_columns, Doubles, Doubled, Slot, Begun, SlotFilled, Slots, SlotsFilled, packed, nine_columns, short_column, eight_twice, short_places};

mod tables;

// The columns of a code in the numbering of tails: n of them; what follows says nothing.
pub fn columns(m: u32, r: u32) -> [u16; 15]
    requires { accepted m r ≡ true }
    ensures { take (long m) result ≡ columns m r }
{
    if m == 3 {
        if r < 3 {
            return [6, 3, 7, 5, 4, 2, 1, 0, 0, 0, 0, 0, 0, 0, 0];
        }
        return [63, 32, 16, 8, 4, 2, 1, 0, 0, 0, 0, 0, 0, 0, 0];
    }
    if r < 3 {
        return [12, 6, 3, 13, 10, 5, 14, 7, 15, 11, 9, 8, 4, 2, 1];
    }
    if r == 4 {
        return [139, 206, 103, 184, 92, 46, 23, 128, 64, 32, 16, 8, 4, 2, 1];
    }
    [
        946, 473, 862, 431, 869, 512, 256, 128, 64, 32, 16, 8, 4, 2, 1,
    ]
}

// Where each slot begins, and where the last one ends.
#[tactic(auto, using(crate::proofs::Choices::slots_are))]
pub fn slots(m: u32, r: u32) -> [u16; 5]
    requires { accepted m r ≡ true }
    ensures { result ≡ slots m r }
{
    if m == 3 {
        if r == 3 {
            return [0, 128, 256, 320, 336];
        }
        if r % 3 == 1 {
            return [0, 64, 128, 144, 160];
        }
        return [0, 16, 32, 48, 64];
    }
    if r == 1 {
        return [0, 256, 512, 768, 784];
    }
    if r == 2 {
        return [0, 128, 192, 256, 320];
    }
    if r == 4 {
        return [0, 256, 512, 768, 1024];
    }
    [0, 1024, 2048, 3072, 4096]
}

// What the places of the four slots are xored with, four numbers to a step.
#[tactic(auto, using(crate::proofs::Choices::steps_are), unfolding(crate::specs::Spots::all_steps, tails::specs::Tails::steps))]
pub fn steps(m: u32, r: u32) -> [u16; 48]
    requires { accepted m r ≡ true }
    ensures { result ≡ all_steps m r }
{
    if m == 3 {
        if r == 3 {
            return tables::STEPS_3_3;
        }
        if r % 3 == 1 {
            return tables::STEPS_3_1;
        }
        return [0; 48];
    }
    if r == 1 {
        return tables::STEPS_4_1;
    }
    if r == 2 {
        return tables::STEPS_4_2;
    }
    if r == 4 {
        return tables::STEPS_4_4;
    }
    tables::STEPS_4_6
}

// How many turns the walk has.
#[tactic(auto, using(crate::proofs::Choices::turns_are))]
pub fn turns(m: u32, r: u32) -> usize
    requires { accepted m r ≡ true }
    ensures { result ≡ turns m r }
{
    if m == 3 {
        if r == 3 {
            return 32;
        }
        if r % 3 == 1 {
            return 4;
        }
        return 1;
    }
    if r == 1 {
        return 256;
    }
    if r == 2 {
        return 16;
    }
    4096
}

// How many turns a round of it has.
#[tactic(auto, using(crate::proofs::Choices::round_is))]
pub fn round(m: u32, r: u32) -> usize
    requires { accepted m r ≡ true }
    ensures { result ≡ round m r }
{
    if m == 3 {
        if r == 3 {
            return 8;
        }
        if r % 3 == 1 {
            return 4;
        }
        return 1;
    }
    if r == 2 {
        return 4;
    }
    if r == 6 {
        return 64;
    }
    16
}

// The cosets of the places' bits, ten to a slot, where the walk has more than one turn.
fn place_columns(m: u32, r: u32) -> [u16; 40]
    requires { (accepted m r ≡ true) × (1 < turns m r) }
    ensures { result ≡ all_place_columns m r }
{
    if m == 3 {
        if r == 1 {
            return tables::PLACES_3_1;
        }
        if r == 3 {
            return tables::PLACES_3_3;
        }
        return tables::PLACES_3_4;
    }
    // by < and not by ==: the compiler makes shorter code of it
    if r < 2 {
        return tables::PLACES_4_1;
    }
    if r < 3 {
        return tables::PLACES_4_2;
    }
    if r < 5 {
        return tables::PLACES_4_4;
    }
    tables::PLACES_4_6
}

// After the first s entries the same ones again, each with column b.
fn double(columns: &[u16], b: usize, s: usize, part: &mut [u16])
    requires { Doubles columns.now b s part.old }
    ensures { Doubled s s (get_or columns.now b 0 * 4) part.old part.new }
{
    let h = columns[b] * 4;
    for p in 0..s {
        part[s + p] = part[p] ^ h;
    }
}

// The entries of the first sixteen places of slot j.
fn first_sixteen(columns: &[u16], j: u16, part: &mut [u16])
    requires { Slot columns.now j part.old }
    ensures { Begun columns.now j 4 16 part.old part.new }
{
    part[0] = j;
    double(columns, 0, 1, part);
    double(columns, 1, 2, part);
    double(columns, 2, 4, part);
    double(columns, 3, 8, part);
}

// The entries of all its places, whose bits have these columns.
fn fill_slot(columns: &[u16], j: u16, part: &mut [u16])
    requires { Slot columns.now j part.old }
    ensures { SlotFilled columns.now j part.old part.new }
{
    first_sixteen(columns, j, part);
    let mut b: usize = 4;
    let mut s: usize = 16;
    // s doubles, and a `for` over b would have to say s and the last b by powers and logarithms: no plainer
    while s < part.len() {
        double(columns, b, s, part);
        b += 1;
        s += s;
    }
}

// Each slot in turn.
fn fill_slots(columns: &[u16], slots: &[u16], places: &mut [u16])
    requires { Slots columns.now slots.now places.old }
    ensures { SlotsFilled 4 columns.now slots.now places.old places.new }
{
    for j in 0..4 {
        let from = slots[j] as usize;
        let to = slots[j + 1] as usize;
        let c = j * 10;
        let e = c + 10;
        fill_slot(&columns[c..e], j as u16, &mut places[from..to]);
    }
}

// Where the walk has one turn: the columns as one number, six bits to each, three for slots 0, 1 and 2 in turn. All other columns are 0.
#[tactic(auto, using(crate::proofs::Choices::packed_is))]
fn short_columns(r: u32) -> u64
    requires { (accepted 3 r ≡ true) × (turns 3 r ≡ 1) }
    ensures { result ≡ packed (nine_columns r) }
{
    if r == 2 {
        return 1996854969000069;
    }
    if r == 5 {
        return 6704459381163661;
    }
    0
}

// Column k of these, times 4: what is xored to an entry.
fn short_column(w: u64, k: u32) -> u16
    requires { k < 9 }
    ensures { result ≡ short_column w k }
{
    (((w >> (6 * k)) % 64) * 4) as u16
}

// The entries of a slot of sixteen places, x0 the first: its fourth column is 0, so that the last eight repeat the first.
fn fill_eight(a: u16, b: u16, c: u16, x0: u16, part: &mut [u16])
    requires { length part.old ≡ 16 }
    ensures { part.new ≡ eight_twice a b c x0 }
{
    let x1 = x0 ^ a;
    let x2 = x0 ^ b;
    let x3 = x1 ^ b;
    let x4 = x0 ^ c;
    let x5 = x1 ^ c;
    let x6 = x2 ^ c;
    let x7 = x3 ^ c;
    part[0] = x0;
    part[1] = x1;
    part[2] = x2;
    part[3] = x3;
    part[4] = x4;
    part[5] = x5;
    part[6] = x6;
    part[7] = x7;
    part[8] = x0;
    part[9] = x1;
    part[10] = x2;
    part[11] = x3;
    part[12] = x4;
    part[13] = x5;
    part[14] = x6;
    part[15] = x7;
}

// Four such slots, the last with no column but 0.
fn fill_short(w: u64, places: &mut [u16])
    requires { length places.old ≡ 64 }
    ensures { places.new ≡ short_places w }
{
    fill_eight(
        short_column(w, 0),
        short_column(w, 1),
        short_column(w, 2),
        0,
        &mut places[0..16],
    );
    fill_eight(
        short_column(w, 3),
        short_column(w, 4),
        short_column(w, 5),
        1,
        &mut places[16..32],
    );
    fill_eight(
        short_column(w, 6),
        short_column(w, 7),
        short_column(w, 8),
        2,
        &mut places[32..48],
    );
    fill_eight(0, 0, 0, 3, &mut places[48..64]);
}

// The entry that each place stands for.
pub fn fill(m: u32, r: u32, size: usize, places: &mut [u16])
    requires code_accepted { accepted m r ≡ true }
    requires room_of_code { (size ≡ 2 ^ syndrome_long m r) × (length places.old ≡ start (slots m r) 4) }
    ensures { Placed m r size places.new }
{
    if turns(m, r) == 1 {
        return fill_short(short_columns(r), places);
    }
    let columns = place_columns(m, r);
    let slots = slots(m, r);
    fill_slots(&columns, &slots, places);
}
