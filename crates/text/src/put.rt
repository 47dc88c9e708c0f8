// Texts put into a lent buffer, one after the other.
ghost use Rattle.std.specs.Prelude.{◌≡◌, ◌∷◌, []};
ghost use Rattle.text.specs.Put.{IsPut};
ghost use Rattle.text.specs.Decimal.{decimal_of, minus, signed_of};

// A lent buffer, and the next free place in it. Where the whole of a text does not fit from there on, nothing is put.
//
// Each method keeps the reference (`same_buffer`): so whoever lent the buffer knows what it ends as.
#[derive(Drop)]
pub struct Page<'a> {
    pub bytes: &'a mut [u8],
    pub next: usize,
}

impl Page<'_> {
    pub fn put_byte(&mut self, b: u8)
        ensures same_buffer { self.new.bytes.ghost_name ≡ self.old.bytes.ghost_name }
        ensures put { IsPut self.old self.new (b ∷ []) }
    {
        if self.next < self.bytes.len() {
            self.bytes[self.next] = b;
            self.next += 1;
        }
    }

    pub fn put_bytes(&mut self, s: &[u8])
        ensures same_buffer { self.new.bytes.ghost_name ≡ self.old.bytes.ghost_name }
        ensures put { IsPut self.old self.new s.now }
    {
        let Some(end) = self.next.checked_add(s.len()) else {
            return;
        };
        if end <= self.bytes.len() {
            self.bytes[self.next..end].copy_from_slice(s);
            self.next = end;
        }
    }

    // A number in decimal, with no zero in front.
    pub fn put_decimal(&mut self, n: u64)
        ensures same_buffer { self.new.bytes.ghost_name ≡ self.old.bytes.ghost_name }
        ensures put { IsPut self.old self.new (decimal_of n) }
    {
        let mut digits = [0u8; 20];
        let k = io::decimal(n, &mut digits);
        self.put_bytes(&digits[..k]);
    }

    // A signed number in decimal, with `-` in front where it is below zero. Inlined: `weights` puts two of them on a line.
    #[inline]
    pub fn put_signed(&mut self, z: i32)
        ensures same_buffer { self.new.bytes.ghost_name ≡ self.old.bytes.ghost_name }
        ensures put { IsPut self.old self.new (signed_of z) }
    {
        let size = u64::from(z.unsigned_abs());
        if z < 0 {
            self.put_negative(size);
        } else {
            self.put_decimal(size);
        }
    }

    // A number in decimal, with `-` in front.
    fn put_negative(&mut self, n: u64)
        ensures same_buffer { self.new.bytes.ghost_name ≡ self.old.bytes.ghost_name }
        ensures put { IsPut self.old self.new (minus (decimal_of n)) }
    {
        let mut digits = [0u8; 20];
        let k = io::decimal(n, &mut digits);
        let mut text = [b'-'; 21];
        text[1..].copy_from_slice(&digits);
        self.put_bytes(&text[..=k]);
    }
}
