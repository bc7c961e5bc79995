// A form on its way out: each field is put behind the bits that do not yet fill a byte, and a byte that is full goes out.
ghost use Rattle.std.specs.Prelude.{◌≡◌, ◌+◌, ◌*◌, ◌^◌, ◌≤◌, ◌<◌, length};
ghost use Rattle.packed_bits.specs.PackedFields.{Narrow};

// A form on its way into `out`: `at` whole bytes are out; `held` has the next bits, `count` of them.
#[derive(Drop)]
pub struct Bits<'a> {
    out: &'a mut [u8],
    at: usize,
    held: usize,
    count: usize,
    ghost few: { count < 8 },
    ghost small: { held < 2 ^ count },
}

// The bits held, and behind them those of x.
fn join(held: usize, count: usize, width: usize, x: usize) -> usize
    requires { (count < 8) × (held < 2 ^ count) × (width ≤ 8) × (x < 2 ^ width) }
    ensures { (result ≡ held * 2 ^ width + x) × (result < 2 ^ (count + width)) }
{
    (held << width) + x
}

impl<'a> Bits<'a> {
    ghost use Rattle.put_packed.specs.PutBits.{HasRoom, PutsField, PutsFields, AllOut};

    // No bit yet.
    pub fn new(out: &'a mut [u8]) -> Bits<'a>
        ensures same_buffer { result.out.ghost_name ≡ out.entry.ghost_name }
        ensures kept { result.out.now ≡ out.old }
        ensures none { (result.at ≡ 0) × (result.held ≡ 0) × (result.count ≡ 0) }
    {
        Bits {
            out,
            at: 0,
            held: 0,
            count: 0,
        }
    }

    // One more field. Its width is a number, at most 8: the last one is as wide as what is left of its byte.
    pub fn put(&mut self, width: usize, x: usize)
        requires { HasRoom self.old width × (width ≤ 8) × (x < 2 ^ width) }
        ensures { PutsField width x self.old self.new }
    {
        let all = join(self.held, self.count, width, x);
        let count = self.count + width;
        if count < 8 {
            self.held = all;
            self.count = count;
            return;
        }
        let more = count - 8;
        self.out[self.at] = (all >> more) as u8;
        self.at += 1;
        self.held = packed_bits::low(all, more);
        self.count = more;
    }

    // A field for each of the bytes.
    pub fn put_each(&mut self, width: usize, bytes: &[u8])
        requires { HasRoom self.old (length bytes.now * width) × (width ≤ 8) × Narrow width bytes.now }
        ensures { PutsFields width bytes.now (length bytes.now) self.old self.new }
    {
        for &byte in bytes {
            self.put(width, byte as usize);
        }
    }

    // Zero bits to a whole byte: how many bytes are out then.
    // By `&mut`: of a struct by value that is changed in the body, no proof is made of what it leaves in the buffer.
    pub fn finish(&mut self) -> usize
        requires { HasRoom self.old 0 }
        ensures { AllOut self.old self.new result }
    {
        if self.count > 0 {
            self.put(8 - self.count, 0);
        }
        self.at
    }
}
