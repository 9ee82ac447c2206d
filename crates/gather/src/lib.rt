// From a table to the places of the walk and back: what each place costs, and for each entry the least of the places that stand for it. It knows no walk. Its
// functions are for the crates above; their promises cite specs/Gather.antt.
#![tactic(auto)]

ghost use Rattle.std.specs.Prelude.{◌≡◌, ℕ, ◌+◌, ◌/◌, ◌%◌, ◌<◌, ◌≤◌, min, [], length, get_or, set, take};
ghost use Rattle.gather.specs.Gather.{key_cost, Answered, Gathered, Lowered, Scattered, LessOwn, Sixteens, Scatter};

// What each place costs, where `cost` says what the entry that it stands for does. The compiler writes a loop of sixteen out.
fn gather_by<F: Fn(u16) -> u16>(cost: F, places: &[u16], f: &mut [u16])
    requires in_sixteens { length places.now % 16 ≡ 0 }
    requires answers_each { (p : ℕ) → p < length places.now → F.pre cost (get_or places.now p 0) }
    requires f_len { length f.old ≡ length places.now }
    ensures { Answered (F.post cost) places.now (length places.now) f.new }
{
    for row in 0..places.len() / 16 {
        let p = row * 16;
        for x in 0..16 {
            f[p + x] = cost(places[p + x]);
        }
    }
}

// What each place costs, from a table of keys.
pub fn gather(t: &[u32], places: &[u16], f: &mut [u16])
    requires { Sixteens (length t.now) places.now × (length f.old ≡ length places.now) }
    ensures { Gathered (key_cost t.now) places.now f.new }
{
    gather_by(|s| (t[s as usize] / 65536) as u16, places, f);
}

// The same from a table of costs.
pub fn gather_costs(t: &[u16], places: &[u16], f: &mut [u16])
    requires { Sixteens (length t.now) places.now × (length f.old ≡ length places.now) }
    ensures { Gathered (λ x. get_or t.now x 0) places.now f.new }
{
    gather_by(|s| t[s as usize], places, f);
}

// Entry s of a table lowered to x.
fn lower_at(a: &mut [u16], s: u16, x: u16)
    requires { s < length a.old }
    ensures { a.new ≡ set a.old s (min (get_or a.old s 0) x) }
{
    let i = s as usize;
    a[i] = lanes::less_of(a[i], x);
}

// What each place costs itself taken off.
fn less_own(f: &[u16], g: &mut [u16])
    requires same_length { length f.now ≡ length g.old }
    requires own_within { (p : ℕ) → p < length g.old → get_or f.now p 0 ≤ get_or g.old p 0 }
    ensures { LessOwn f.now g.old (length g.old) g.new }
{
    for p in 0..g.len() {
        g[p] -= f[p];
    }
}

// Every number of a list the same.
pub fn reset(g: &mut [u16], x: u16)
    ensures { (length g.new ≡ length g.old) × ((p : ℕ) → p < length g.old → get_or g.new p 0 ≡ x) }
{
    // tried with the slice's `fill`, which takes more instructions
    for one in g.iter_mut() {
        *one = x;
    }
}

// The entries of a table, each the least of the places that stand for it.
fn lower_places(g: &[u16], places: &[u16], a: &mut [u16], cap: u16)
    requires { Sixteens (length a.old) places.now × (length g.now ≡ length places.now) }
    ensures scattered { Scattered cap [] g.now places.now a.new }
    ensures a_len_unchanged { length a.new ≡ length a.old }
{
    reset(a, cap);
    for row in 0..places.len() / 16 {
        let p = row * 16;
        for x in 0..16 {
            lower_at(a, places[p + x], g[p + x]);
        }
    }
}

// What the other layers cost at the least, for each of so many entries, in the room in which the costs of the places stood; g is used up. Own costs are taken
// off first, several at a time.
pub fn scatter(room: &mut [u16], g: &mut [u16], places: &[u16], states: usize, cap: u16)
    requires { Scatter states room.old g.old places.now }
    ensures scattered { Scattered cap (take (length places.now) room.old) g.old places.now (take states room.new) }
    ensures room_len_unchanged { length room.new ≡ length room.old }
{
    let count = places.len();
    less_own(&room[..count], g);
    lower_places(g, places, &mut room[..states], cap);
}
