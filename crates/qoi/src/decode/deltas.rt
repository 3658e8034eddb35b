//! What the bytes of a chunk do to the last pixel, and how many bytes its pixels have, by tables:
//! so a loop has no jump between kinds of chunks.
ghost use Rattle.std.specs.Prelude.{◌≡◌, ℕ, ◌-◌, ◌*◌, ◌/◌, ◌%◌, ◌^◌, ◌<◌, ◌≤◌, nat_le, nat_lt, ◌&&◌, length, slice_index};
ghost use Rattle.qoi.specs.Qoi.{diff_tag, luma_tag, run_tag, rgb_tag, rgba_tag};
ghost use Rattle.qoi.specs.Raw.{IsChannels};
ghost use Rattle.qoi.specs.inner.Filling.{IsAdvance};
ghost use Rattle.qoi.specs.inner.Hashed.{step, IsAdded};
ghost use Rattle.qoi.specs.declared.decode.deltas.TheConstants.{KEEP};

use crate::consts::QOI_OP_LUMA;

// A table by the macro `$table`, which is given all bytes.
macro_rules! of_all_bytes {
    ($table:ident) => {
        $table!(
            0 1 2 3 4 5 6 7 8 9 10 11 12 13 14 15 16 17 18 19 20 21 22 23 24 25 26 27 28 29 30 31 32
            33 34 35 36 37 38 39 40 41 42 43 44 45 46 47 48 49 50 51 52 53 54 55 56 57 58 59 60 61
            62 63 64 65 66 67 68 69 70 71 72 73 74 75 76 77 78 79 80 81 82 83 84 85 86 87 88 89 90
            91 92 93 94 95 96 97 98 99 100 101 102 103 104 105 106 107 108 109 110 111 112 113 114
            115 116 117 118 119 120 121 122 123 124 125 126 127 128 129 130 131 132 133 134 135 136
            137 138 139 140 141 142 143 144 145 146 147 148 149 150 151 152 153 154 155 156 157 158
            159 160 161 162 163 164 165 166 167 168 169 170 171 172 173 174 175 176 177 178 179 180
            181 182 183 184 185 186 187 188 189 190 191 192 193 194 195 196 197 198 199 200 201 202
            203 204 205 206 207 208 209 210 211 212 213 214 215 216 217 218 219 220 221 222 223 224
            225 226 227 228 229 230 231 232 233 234 235 236 237 238 239 240 241 242 243 244 245 246
            247 248 249 250 251 252 253 254 255
        )
    };
}

// A number that adds `$r` to red (bits 0 to 15), `$g` to green (16 to 31) and `$b` to blue (32 to
// 47), and what they add to four times the index position (56 to 63).
macro_rules! step {
    ($r:expr, $g:expr, $b:expr) => {
        $r + ($g << 16) + ($b << 32) + ((4 * (3 * $r + 5 * $g + 7 * $b) % 256) << 56)
    };
}

// What a chunk adds to the last pixel, by its first byte. A difference adds two less than its bits
// say, and a luma 32 less to green, and to red and blue eight less than to green, all modulo 256.
// Runs, RGB and RGBA add nothing. An index position has 0, too: the number of transparent black,
// which the table of a decoder, made of these, has there at first.
macro_rules! added_table {
    ($($b:literal)*) => {
        [$(
            if $b < 64 {
                0
            } else if $b < 128 {
                step!($b / 16 % 4 + 254, $b / 4 % 4 + 254, $b % 4 + 254)
            } else if $b < 192 {
                step!($b % 64 + 216, $b % 64 + 224, $b % 64 + 216)
            } else {
                0
            }
        ),*]
    };
}

static ADDED: [u64; 256] = of_all_bytes!(added_table);

// What most first bytes keep of the last pixel: the channels and the index position, without what
// stands above red, green and blue.
const KEEP: u64 = 0xffff_00ff_00ff_00ff;

// All bits.
const ALL: u64 = u64::MAX;

// How many pixels a chunk has, by its first byte.
macro_rules! count {
    ($b:literal) => {
        if 192 <= $b && $b < 254 { $b - 191 } else { 1 }
    };
}

// Five tables, one after the other: one array needs one address in a loop.
macro_rules! byte_tables {
    ($($b:literal)*) => {
        [
            // What the second byte of a luma adds.
            $(step!($b / 16, 0, $b % 16),)*
            // What a first byte keeps of the last pixel's number: for an RGB chunk alpha alone.
            $(if $b < 64 || $b == 255 { 0 } else if $b == 254 { 0xff << 48 } else { KEEP },)*
            // Which bits count of what is read after it: of an RGB chunk three lanes of 16 bits.
            $(if $b / 64 == 2 || $b == 255 { ALL } else if $b == 254 { ALL >> 16 } else { 0 },)*
            // How many bytes the chunk's pixels have in three channels, and in four.
            $(3 * count!($b),)*
            $(4 * count!($b),)*
        ]
    };
}

static BYTE_TABLES: [u64; 1280] = of_all_bytes!(byte_tables);

/// Whether a chunk with this first byte is a luma.
#[inline(always)]
pub(super) fn is_luma(b1: u8) -> bool
    ensures { result ≡ (nat_le luma_tag b1 && nat_lt b1 run_tag) }
{
    b1.wrapping_sub(QOI_OP_LUMA) < 64
}

/// What the first bytes add, and 0 for those of index positions: a slice, to be copied at once.
#[inline(always)]
pub(super) fn all_added() -> &'static [u64]
    ensures size { length result.now ≡ 256 }
    ensures places { (i : ℕ) → i < diff_tag → slice_index result.now i ≡ 0 }
    ensures others { (i : ℕ) → diff_tag ≤ i → i < 256 → IsAdded i (slice_index result.now i) }
{
    &ADDED
}

/// What a first byte adds that isn't an index position's (QOI specification 1.0, "QOI_OP_DIFF" and
/// "QOI_OP_LUMA").
#[inline(always)]
pub(super) fn added(b1: usize) -> u64
    requires { (diff_tag ≤ b1) × (b1 < 256) }
    ensures { IsAdded b1 result }
{
    ADDED[b1]
}

/// What the second byte of a luma adds (QOI specification 1.0, "QOI_OP_LUMA").
#[inline(always)]
#[tactic(auto, using(crate::proofs::format::AddedTerms::second_adds))]
pub(super) fn second_added(b2: usize) -> u64
    requires { b2 < 256 }
    ensures { result ≡ step (b2 / 16) 0 (b2 % 16) }
{
    BYTE_TABLES[b2]
}

/// What a first byte keeps of the last pixel's number.
#[inline(always)]
pub(super) fn kept_by(b1: usize) -> u64
    requires { b1 < 256 }
    ensures place { b1 < diff_tag → result ≡ 0 }
    ensures other { diff_tag ≤ b1 → b1 < rgb_tag → result ≡ KEEP }
    ensures rgb { b1 ≡ rgb_tag → result ≡ 0xff * 2 ^ 48 }
    ensures rgba { b1 ≡ rgba_tag → result ≡ 0 }
{
    BYTE_TABLES[256 + b1]
}

/// Which bits count of the number that is read after the first byte: for a luma all of what its
/// second byte adds, for an RGBA chunk all of its four bytes in lanes of 16 bits, for an RGB chunk
/// three of these lanes, and else none.
#[inline(always)]
pub(super) fn read_by(b1: usize) -> u64
    requires { b1 < 256 }
    ensures luma { luma_tag ≤ b1 → b1 < run_tag → result ≡ 2 ^ 64 - 1 }
    ensures before { b1 < luma_tag → result ≡ 0 }
    ensures run { run_tag ≤ b1 → b1 < rgb_tag → result ≡ 0 }
    ensures rgb { b1 ≡ rgb_tag → result ≡ 2 ^ 48 - 1 }
    ensures rgba { b1 ≡ rgba_tag → result ≡ 2 ^ 64 - 1 }
{
    BYTE_TABLES[512 + b1]
}

/// How many bytes the pixels of a chunk have in `N` channels.
#[inline(always)]
pub(super) fn advance<const N: usize>(b1: usize) -> usize
    requires channels { IsChannels N }
    requires byte { b1 < 256 }
    ensures { IsAdvance N b1 result }
{
    if N == 3 {
        BYTE_TABLES[768 + b1] as usize
    } else {
        BYTE_TABLES[1024 + b1] as usize
    }
}
