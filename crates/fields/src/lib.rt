// Little-endian fields of a slice of bytes. Past the end a byte reads as 0, and a write changes nothing.
#![tactic(auto)]

ghost use Rattle.std.specs.Prelude.{◌≡◌, ◌+◌, ◌^◌, ◌≤◌, ◌<◌, length, ℕ};
ghost use Rattle.std.specs.Int.Signed.{mag};
ghost use Rattle.std.proofs.Common.{rules};
ghost use Rattle.rules.specs.Bytes.{Bytes, byte, field, put, signed, unsigned};
ghost use Rattle.fields.specs.Back.{byte-back, number-back, value-back};

// What stands in a field of some bytes, lowest byte first: how many these are, its value where they stand in a list, and the
// number that is put for it.
pub trait Field {
    ghost width: { ℕ };

    ghost value: { Bytes → ℕ → Self };

    ghost number: { Self → ℕ };

    ghost fits: { Self → Type 0 };

    fn at(s: &[u8], place: usize) -> Self
        ensures { result ≡ value s.now place };

    fn put(self, s: &mut [u8], place: usize)
        ensures { s.new ≡ put width s.old place (number self) };

    // What was put is read back.
    ghost back: { (v : Self) → fits v → (s : Bytes) (i : ℕ) → i + width ≤ length s → value (put width s i (number v)) i ≡ v };
}

impl Field for u8 {
    ghost width = { 1 };

    ghost value = { byte };

    ghost number = { λ v. v };

    ghost fits = { λ v. v < 2 ^ 8 };

    ghost back = { byte-back };

    fn at(s: &[u8], place: usize) -> u8 {
        if place < s.len() { s[place] } else { 0 }
    }

    fn put(self, s: &mut [u8], place: usize) {
        if place < s.len() {
            s[place] = self;
        }
    }
}

impl Field for u16 {
    ghost width = { 2 };

    ghost value = { field 2 };

    ghost number = { λ v. v };

    ghost fits = { λ v. v < 2 ^ 16 };

    ghost back = { number-back 2 };

    // A field that is there whole is one load or store.
    fn at(s: &[u8], place: usize) -> u16 {
        if place < s.len() {
            if 1 < s.len() - place {
                u16::from_le_bytes([s[place], s[place + 1]])
            } else {
                s[place] as u16
            }
        } else {
            0
        }
    }

    fn put(self, s: &mut [u8], place: usize) {
        if place < s.len() {
            if 1 < s.len() - place {
                s[place..place + 2].copy_from_slice(&self.to_le_bytes());
            } else {
                s[place] = (self % 256) as u8;
            }
        }
    }
}

impl Field for u32 {
    ghost width = { 4 };

    ghost value = { field 4 };

    ghost number = { λ v. v };

    ghost fits = { λ v. v < 2 ^ 32 };

    ghost back = { number-back 4 };

    fn at(s: &[u8], place: usize) -> u32 {
        if place < s.len() {
            if 3 < s.len() - place {
                u32::from_le_bytes([s[place], s[place + 1], s[place + 2], s[place + 3]])
            } else {
                let low = u16::at(s, place);
                let high = u16::at(s, place + 2);
                low as u32 + 65536 * (high as u32)
            }
        } else {
            0
        }
    }

    fn put(self, s: &mut [u8], place: usize) {
        if place < s.len() {
            if 3 < s.len() - place {
                s[place..place + 4].copy_from_slice(&self.to_le_bytes());
            } else {
                let low = (self % 65536) as u16;
                let high = (self / 65536) as u16;
                low.put(s, place);
                high.put(s, place + 2);
            }
        }
    }
}

impl Field for i8 {
    ghost width = { 1 };

    ghost value = { λ s i. signed 1 (field 1 s i) };

    ghost number = { unsigned 1 };

    ghost fits = { λ v. mag v < 2 ^ 7 };

    ghost back = { λ v. value-back 1 v (Prim.search rules) };

    fn at(s: &[u8], place: usize) -> i8 {
        u8::at(s, place).cast_signed()
    }

    fn put(self, s: &mut [u8], place: usize) {
        u8::put(self.cast_unsigned(), s, place);
    }
}

impl Field for i16 {
    ghost width = { 2 };

    ghost value = { λ s i. signed 2 (field 2 s i) };

    ghost number = { unsigned 2 };

    ghost fits = { λ v. mag v < 2 ^ 15 };

    ghost back = { λ v. value-back 2 v (Prim.search rules) };

    fn at(s: &[u8], place: usize) -> i16 {
        u16::at(s, place).cast_signed()
    }

    fn put(self, s: &mut [u8], place: usize) {
        u16::put(self.cast_unsigned(), s, place);
    }
}

impl Field for i32 {
    ghost width = { 4 };

    ghost value = { λ s i. signed 4 (field 4 s i) };

    ghost number = { unsigned 4 };

    ghost fits = { λ v. mag v < 2 ^ 31 };

    ghost back = { λ v. value-back 4 v (Prim.search rules) };

    fn at(s: &[u8], place: usize) -> i32 {
        u32::at(s, place).cast_signed()
    }

    fn put(self, s: &mut [u8], place: usize) {
        u32::put(self.cast_unsigned(), s, place);
    }
}
