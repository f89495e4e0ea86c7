//! What SHA-256 as FIPS 180-4 has it does with one block.
ghost use Rattle.std.specs.Prelude.{◌≡◌, ◌+◌, ◌<◌, ◌≤◌, ◌++◌, length, take};
ghost use Rattle.digest.specs.Sha256.{Ch, Maj, Σ₀, Σ₁, σ₀, σ₁, word, word_bytes, round, rounds, plus, message_schedule, compress, digest_bytes};

pub const BLOCK_LEN: usize = 64;

pub type Block = [u8; BLOCK_LEN];

pub const DIGEST_LEN: usize = 32;

pub type Digest = [u8; DIGEST_LEN];

const ROUNDS: usize = 64;

/// The constants of the rounds.
const ROUND_CONSTANTS: [u32; ROUNDS] = [
    0x428a_2f98,
    0x7137_4491,
    0xb5c0_fbcf,
    0xe9b5_dba5,
    0x3956_c25b,
    0x59f1_11f1,
    0x923f_82a4,
    0xab1c_5ed5,
    0xd807_aa98,
    0x1283_5b01,
    0x2431_85be,
    0x550c_7dc3,
    0x72be_5d74,
    0x80de_b1fe,
    0x9bdc_06a7,
    0xc19b_f174,
    0xe49b_69c1,
    0xefbe_4786,
    0x0fc1_9dc6,
    0x240c_a1cc,
    0x2de9_2c6f,
    0x4a74_84aa,
    0x5cb0_a9dc,
    0x76f9_88da,
    0x983e_5152,
    0xa831_c66d,
    0xb003_27c8,
    0xbf59_7fc7,
    0xc6e0_0bf3,
    0xd5a7_9147,
    0x06ca_6351,
    0x1429_2967,
    0x27b7_0a85,
    0x2e1b_2138,
    0x4d2c_6dfc,
    0x5338_0d13,
    0x650a_7354,
    0x766a_0abb,
    0x81c2_c92e,
    0x9272_2c85,
    0xa2bf_e8a1,
    0xa81a_664b,
    0xc24b_8b70,
    0xc76c_51a3,
    0xd192_e819,
    0xd699_0624,
    0xf40e_3585,
    0x106a_a070,
    0x19a4_c116,
    0x1e37_6c08,
    0x2748_774c,
    0x34b0_bcb5,
    0x391c_0cb3,
    0x4ed8_aa4a,
    0x5b9c_ca4f,
    0x682e_6ff3,
    0x748f_82ee,
    0x78a5_636f,
    0x84c8_7814,
    0x8cc7_0208,
    0x90be_fffa,
    0xa450_6ceb,
    0xbef9_a3f7,
    0xc671_78f2,
];

/// The initial hash value H(0).
pub const INITIAL: Words = Words {
    a: 0x6a09e667,
    b: 0xbb67ae85,
    c: 0x3c6ef372,
    d: 0xa54ff53a,
    e: 0x510e527f,
    f: 0x9b05688c,
    g: 0x1f83d9ab,
    h: 0x5be0cd19,
};

/// The eight words of a hash value, or the eight working variables of the rounds.
#[derive(Clone, Copy)]
pub struct Words {
    a: u32,
    b: u32,
    c: u32,
    d: u32,
    e: u32,
    f: u32,
    g: u32,
    h: u32,
}

fn choose(x: u32, y: u32, z: u32) -> u32
    ensures { result ≡ Ch x y z }
{
    (x & y) ^ (!x & z)
}

fn majority(x: u32, y: u32, z: u32) -> u32
    ensures { result ≡ Maj x y z }
{
    (x & y) ^ (x & z) ^ (y & z)
}

fn big_sigma_0(x: u32) -> u32
    ensures { result ≡ Σ₀ x }
{
    x.rotate_right(2) ^ x.rotate_right(13) ^ x.rotate_right(22)
}

fn big_sigma_1(x: u32) -> u32
    ensures { result ≡ Σ₁ x }
{
    x.rotate_right(6) ^ x.rotate_right(11) ^ x.rotate_right(25)
}

fn small_sigma_0(x: u32) -> u32
    ensures { result ≡ σ₀ x }
{
    x.rotate_right(7) ^ x.rotate_right(18) ^ (x >> 3)
}

fn small_sigma_1(x: u32) -> u32
    ensures { result ≡ σ₁ x }
{
    x.rotate_right(17) ^ x.rotate_right(19) ^ (x >> 10)
}

impl Words {
    /// One round, with its constant and its word of the schedule.
    fn round(self, k: u32, w: u32) -> Words
        ensures { result ≡ round k w self }
    {
        let t1 = self
            .h
            .wrapping_add(big_sigma_1(self.e))
            .wrapping_add(choose(self.e, self.f, self.g))
            .wrapping_add(k)
            .wrapping_add(w);
        let t2 = big_sigma_0(self.a).wrapping_add(majority(self.a, self.b, self.c));
        Words {
            a: t1.wrapping_add(t2),
            b: self.a,
            c: self.b,
            d: self.c,
            e: self.d.wrapping_add(t1),
            f: self.e,
            g: self.f,
            h: self.g,
        }
    }

    /// The sums word by word.
    fn plus(self, other: Words) -> Words
        ensures { result ≡ plus self other }
    {
        Words {
            a: self.a.wrapping_add(other.a),
            b: self.b.wrapping_add(other.b),
            c: self.c.wrapping_add(other.c),
            d: self.d.wrapping_add(other.d),
            e: self.e.wrapping_add(other.e),
            f: self.f.wrapping_add(other.f),
            g: self.g.wrapping_add(other.g),
            h: self.h.wrapping_add(other.h),
        }
    }

    /// The 64 rounds over a message schedule.
    fn rounds(self, schedule: &[u32; ROUNDS]) -> Words
        ensures { result ≡ rounds schedule.now self 64 }
    {
        let mut variables = self;
        for (k, w) in ROUND_CONSTANTS.iter().zip(schedule) {
            variables = variables.round(*k, *w);
        }
        variables
    }

    /// The hash value after one more block.
    pub fn compress(self, block: &Block) -> Words
        ensures { result ≡ compress self block.now }
    {
        let mut schedule = [0; ROUNDS];
        expand(block, &mut schedule);
        self.rounds(&schedule).plus(self)
    }

    /// The eight words as bytes.
    // A method: `From` would say no more.
    pub fn to_bytes(self) -> Digest
        ensures { result ≡ digest_bytes self }
    {
        let mut bytes = [0; DIGEST_LEN];
        self.write(&mut bytes);
        bytes
    }

    fn write(self, bytes: &mut Digest)
        ensures { bytes.new ≡ digest_bytes self }
    {
        put_word(bytes, 0, self.a);
        put_word(bytes, 4, self.b);
        put_word(bytes, 8, self.c);
        put_word(bytes, 12, self.d);
        put_word(bytes, 16, self.e);
        put_word(bytes, 20, self.f);
        put_word(bytes, 24, self.g);
        put_word(bytes, 28, self.h);
    }
}

/// Writes a word at a byte, its highest byte first.
fn put_word(bytes: &mut [u8], at: usize, word: u32)
    requires { at + 4 ≤ length bytes.old }
    ensures { take (at + 4) bytes.new ≡ take at bytes.old ++ word_bytes word }
{
    bytes[at..at + 4].copy_from_slice(&word.to_be_bytes());
}

/// Word `t` of a block, its first byte the highest.
fn word_at(block: &Block, t: usize) -> u32
    requires { t < 16 }
    ensures { result ≡ word block.now t }
{
    let at = 4 * t;
    u32::from_be_bytes([block[at], block[at + 1], block[at + 2], block[at + 3]])
}

/// Writes the message schedule of a block.
// Into memory lent, since an array handed back costs a tenth of a digest's speed; and into a slice, since of `&mut [u32; 64]` it stayed open
// what the memory ends as.
fn expand(block: &Block, schedule: &mut [u32])
    requires { length schedule.old ≡ 64 }
    ensures { schedule.new ≡ message_schedule block.now 64 }
{
    // By index, as the standard prints it: a word is written by the words 2, 7, 15 and 16 places before it.
    for t in 0..16 {
        schedule[t] = word_at(block, t);
    }
    for t in 16..ROUNDS {
        schedule[t] = small_sigma_1(schedule[t - 2])
            .wrapping_add(schedule[t - 7])
            .wrapping_add(small_sigma_0(schedule[t - 15]))
            .wrapping_add(schedule[t - 16]);
    }
}
