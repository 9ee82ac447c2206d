// The lines of a listing, written into a lent buffer from a place on. The functions are for the crates above: each asks that
// its text has room, and promises by `Puts` of specs/Writer.antt that the text of specs/Text.antt stands there, that the
// rest of the buffer is kept, and that the writer stands behind the text.
#![tactic(auto)]

ghost use Rattle.std.specs.Prelude.{◌≡◌, ◌∷◌, [], length};
ghost use Rattle.metric.specs.Metric.{decided};
ghost use Rattle.text.specs.Text.{space, decimal, sign, signed, bit_byte, bits_field, least_magnitude, header, question_line, count_line, refused_line};
ghost use Rattle.text.specs.Within.{ended, mark_part};
ghost use Rattle.text.specs.Writer.{Puts, Room};

const FEED: u8 = b'\n';

const SPACE: u8 = b' ';

const DASH: u8 = b'-';

const ZERO: u8 = b'0';

const QUESTION_MARK: u8 = b'?';

/// A lent buffer, and the place from which on the next text is written.
#[derive(Drop)]
pub struct Writer<'a> {
    pub out: &'a mut [u8],
    pub at: usize,
}

impl<'a> Writer<'a> {
    /// One that writes from the start on.
    pub fn new(out: &'a mut [u8]) -> Writer<'a>
        ensures same_reference { result.out.ghost_name ≡ out.entry.ghost_name }
        ensures same_buffer { result.out.now ≡ out.old }
        ensures start { result.at ≡ 0 }
    {
        Writer { out, at: 0 }
    }

    pub fn put_byte(&mut self, byte: u8)
        requires { Room (byte ∷ []) self.old }
        ensures { Puts (byte ∷ []) self.old self.new }
    {
        self.out[self.at] = byte;
        self.at += 1;
    }

    pub fn put_bytes(&mut self, text: &[u8])
        requires { Room text.now self.old }
        ensures { Puts text.now self.old self.new }
    {
        let end = self.at + text.len();
        self.out[self.at..end].copy_from_slice(text);
        self.at = end;
    }

    // A number in decimal digits, the last one behind those of its tenth part.
    pub fn put_decimal(&mut self, n: u32)
        requires { Room (decimal n) self.old }
        ensures { Puts (decimal n) self.old self.new }
    {
        if n < 10 {
            self.put_byte(ZERO + n as u8);
        } else {
            self.put_decimal(n / 10);
            self.put_byte(ZERO + (n % 10) as u8);
        }
    }

    // A number, and the byte that ends its field.
    fn put_number(&mut self, n: u32, end: u8)
        requires { Room (ended (decimal n) end) self.old }
        ensures { Puts (ended (decimal n) end) self.old self.new }
    {
        self.put_decimal(n);
        self.put_byte(end);
    }

    // A dash where a number is negative.
    fn put_sign(&mut self, z: i32)
        requires { Room (sign z) self.old }
        ensures { Puts (sign z) self.old self.new }
    {
        if z < 0 {
            self.put_byte(DASH);
        }
    }

    // A signed number as a field that others follow.
    fn put_signed(&mut self, z: i32)
        requires { Room (ended (signed z) space) self.old }
        ensures { Puts (ended (signed z) space) self.old self.new }
    {
        self.put_sign(z);
        self.put_number(z.unsigned_abs(), SPACE);
    }

    // Verdict and shortfall. By their numbers, as the text says every pair of them, also one that no verdict has.
    fn put_mark(&mut self, verdict: u32, shortfall: i32)
        requires { Room (mark_part verdict shortfall) self.old }
        ensures { Puts (mark_part verdict shortfall) self.old self.new }
    {
        if verdict == 0 {
            self.put_bytes(b"none - ");
        } else if verdict == 1 {
            self.put_bytes(b"short ");
            self.put_signed(shortfall);
        } else {
            self.put_bytes(b"best ");
            self.put_signed(shortfall);
        }
    }

    fn put_bits(&mut self, soft: &[i16])
        requires { Room (bits_field soft.now) self.old }
        ensures { Puts (bits_field soft.now) self.old self.new }
    {
        let end = self.at + soft.len();
        fill_bits(soft, &mut self.out[self.at..end]);
        self.at = end;
    }

    pub fn put_question(
        &mut self,
        number: u32,
        code: u32,
        best: i32,
        verdict: u32,
        shortfall: i32,
        soft: &[i16],
    )
        requires { Room (question_line number code best verdict shortfall (bits_field soft.now) (least_magnitude soft.now)) self.old }
        ensures { Puts (question_line number code best verdict shortfall (bits_field soft.now) (least_magnitude soft.now)) self.old self.new }
    {
        let least = least_of(soft);
        self.put_number(number, SPACE);
        self.put_number(code, SPACE);
        self.put_signed(best);
        self.put_mark(verdict, shortfall);
        self.put_bits(soft);
        self.put_byte(SPACE);
        self.put_number(u32::from(least), FEED);
    }

    pub fn put_header(&mut self)
        requires { Room header self.old }
        ensures { Puts header self.old self.new }
    {
        self.put_bytes(b"question code best verdict short bits least\n");
    }

    pub fn put_count(&mut self, count: u32)
        requires { Room (count_line count) self.old }
        ensures { Puts (count_line count) self.old self.new }
    {
        self.put_decimal(count);
        self.put_bytes(b" questions\n");
    }

    pub fn put_refused(&mut self, refusal: u32)
        requires { Room (refused_line refusal) self.old }
        ensures { Puts (refused_line refusal) self.old self.new }
    {
        self.put_bytes(b"refused ");
        self.put_number(refusal, FEED);
    }
}

// A bit by its soft output: the digit that is decided, or a question mark.
#[tactic(auto, unfolding(crate::specs::Text::bit_byte, metric::specs::Metric::decided))]
fn bit_of(s: i16) -> u8
    ensures { result ≡ bit_byte (decided s) }
{
    if s < 0 {
        return ZERO + 1;
    }
    if s == 0 {
        return QUESTION_MARK;
    }
    ZERO
}

// The bits, each in its place, by its index: of a part that `iter_mut().zip(..)` wrote, a proof knows the length alone.
fn fill_bits(soft: &[i16], part: &mut [u8])
    requires { length part.old ≡ length soft.now }
    ensures { part.new ≡ bits_field soft.now }
{
    for (i, s) in soft.iter().enumerate() {
        part[i] = bit_of(*s);
    }
}

// The least size of a soft output; in 16 bits, so that several are compared at a time.
fn least_of(soft: &[i16]) -> u16
    ensures { result ≡ least_magnitude soft.now }
{
    let Some(first) = soft.first() else {
        return 0;
    };
    let mut least = first.unsigned_abs();
    for s in &soft[1..] {
        least = least.min(s.unsigned_abs());
    }
    least
}
