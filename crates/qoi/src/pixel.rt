//! A pixel of three or four channels, for those who look at chunks themselves, through `parts`.
//! Encoder and decoders keep their pixels as numbers (`packed`, `decode/hashed`).
ghost use Rattle.std.specs.Prelude.{◌≡◌, ◌+◌, ◌<◌, ◌≤◌, OnOk, IfErr, ℕ, List, [], ◌∷◌, ◌++◌, length, take, drop, replicate, slice_index, slice_index_or};
ghost use Rattle.qoi.specs.Written.{Spells};
ghost use Rattle.qoi.specs.Writers.{WroteBeginning};
ghost use Rattle.qoi.specs.Qoi.{Chunk, bytes_of, rgba, hash, positions, after_diff, after_luma, moved};
ghost use Rattle.qoi.specs.Raw.{IsChannels};

use crate::encode::fresh::spell_pixel;
use crate::encode::piece::store_chunk;
use crate::error::Result;
use crate::packed::Packed;
use crate::writers::Writer;
use std::marker::Model;

/// A pixel of `N` channels of 8 bits, 3 or 4.
///
/// A contract sees it as the list of its bytes: red, green, blue and, if `N` is 4, alpha.
#[derive(Clone, Copy, PartialEq, Eq, Debug)]
pub struct Pixel<const N: usize>([u8; N]);

impl<const N: usize> Model for Pixel<N> {
    ghost Value = { List ℕ };

    ghost view = { λ p. p.0 };

    ghost inverse = { λ bytes. record { 0 = bytes } };

    ghost invariant = { λ p. length p.0 ≡ N };
}

/// Pixels with a number of channels that the format has.
pub trait SupportedChannels {}

impl SupportedChannels for Pixel<3> {}

impl SupportedChannels for Pixel<4> {}

impl<const N: usize> From<Pixel<N>> for [u8; N] {
    ghost from_gives = { λ px bytes. bytes ≡ px };

    /// The bytes of the pixel: red, green, blue and, if `N` is 4, alpha.
    fn from(px: Pixel<N>) -> [u8; N] {
        px.0
    }
}

impl<const N: usize> Pixel<N> {
    /// The pixel whose bytes are all 0.
    pub fn new() -> Pixel<N>
        requires { IsChannels N }
        ensures { result ≡ replicate N 0 }
    {
        Pixel([0; N])
    }

    /// Takes the bytes of a slice, of which there are `N`.
    pub fn read(&mut self, s: &[u8])
        requires channels { IsChannels N }
        requires size { length s.now ≡ N }
        ensures { self.new ≡ s.now }
    {
        self.0.copy_from_slice(s);
    }

    /// Takes the first bytes of another pixel, as many as both have.
    pub fn update<const M: usize>(&mut self, px: Pixel<M>)
        requires own { IsChannels N }
        requires other { IsChannels M }
        ensures { self.new ≡ take N px.entry ++ drop M self.old }
    {
        let both = N.min(M);
        self.0[..both].copy_from_slice(&px.0[..both]);
    }

    /// Sets red, green and blue, and keeps alpha, as an RGB chunk does (QOI specification 1.0,
    /// "QOI_OP_RGB").
    pub fn update_rgb(&mut self, r: u8, g: u8, b: u8)
        requires { IsChannels N }
        ensures { self.new ≡ r ∷ g ∷ b ∷ drop 3 self.old }
    {
        self.0[0] = r;
        self.0[1] = g;
        self.0[2] = b;
    }

    /// Sets red, green, blue and alpha, as an RGBA chunk does (QOI specification 1.0,
    /// "QOI_OP_RGBA"); three channels drop alpha.
    pub fn update_rgba(&mut self, r: u8, g: u8, b: u8, a: u8)
        requires { IsChannels N }
        ensures { self.new ≡ take N (r ∷ g ∷ b ∷ a ∷ []) }
    {
        self.0[0] = r;
        self.0[1] = g;
        self.0[2] = b;
        if N == 4 {
            self.0[3] = a;
        }
    }

    /// Adds to red, green and blue the differences of a difference chunk's byte (QOI specification
    /// 1.0, "QOI_OP_DIFF"); sums wrap at 256.
    #[tactic(auto, unfolding(crate::specs::Qoi::after_diff))]
    pub fn update_diff(&mut self, b1: u8)
        requires { IsChannels N }
        ensures { rgba self.new ≡ after_diff (rgba self.old) b1 }
    {
        let vr = ((b1 >> 4) & 3).wrapping_sub(2);
        let vg = ((b1 >> 2) & 3).wrapping_sub(2);
        let vb = (b1 & 3).wrapping_sub(2);
        self.rgb_add(vr, vg, vb);
    }

    /// Adds to red, green and blue the differences of a luma chunk's two bytes (QOI specification
    /// 1.0, "QOI_OP_LUMA"); sums wrap at 256.
    #[tactic(auto, unfolding(crate::specs::Qoi::after_luma))]
    pub fn update_luma(&mut self, b1: u8, b2: u8)
        requires { IsChannels N }
        ensures { rgba self.new ≡ after_luma (rgba self.old) b1 b2 }
    {
        let vg = (b1 & 0x3f).wrapping_sub(32);
        let vr = vg.wrapping_sub(8).wrapping_add(b2 >> 4);
        let vb = vg.wrapping_sub(8).wrapping_add(b2 & 0x0f);
        self.rgb_add(vr, vg, vb);
    }

    /// Adds to red, green and blue; sums wrap at 256.
    pub fn rgb_add(&mut self, r: u8, g: u8, b: u8)
        requires { IsChannels N }
        ensures { rgba self.new ≡ moved (rgba self.old) r g b }
    {
        self.0[0] = self.0[0].wrapping_add(r);
        self.0[1] = self.0[1].wrapping_add(g);
        self.0[2] = self.0[2].wrapping_add(b);
    }

    /// The pixel in four channels, with alpha `with_a` if it has three.
    pub fn as_rgba(self, with_a: u8) -> Pixel<4>
        requires { IsChannels N }
        ensures { result ≡ take 4 (self.entry ++ with_a ∷ []) }
    {
        let a = if N == 4 { self.0[3] } else { with_a };
        Pixel([self.0[0], self.0[1], self.0[2], a])
    }

    /// Red.
    pub fn r(self) -> u8
        requires { IsChannels N }
        ensures { result ≡ slice_index self.entry 0 }
    {
        self.0[0]
    }

    /// Green.
    pub fn g(self) -> u8
        requires { IsChannels N }
        ensures { result ≡ slice_index self.entry 1 }
    {
        self.0[1]
    }

    /// Blue.
    pub fn b(self) -> u8
        requires { IsChannels N }
        ensures { result ≡ slice_index self.entry 2 }
    {
        self.0[2]
    }

    /// Alpha, or `value` if there are three channels.
    pub fn a_or(self, value: u8) -> u8
        requires { IsChannels N }
        ensures alpha { result ≡ slice_index_or self.entry 3 value }
        ensures without_alpha { N ≡ 3 → result ≡ value }
    {
        if N == 4 { self.0[3] } else { value }
    }

    /// The pixel with this alpha, or the pixel as it is if there are three channels.
    #[tactic(auto, using(crate::proofs::format::RawPixels::set_last))]
    pub fn with_a(mut self, value: u8) -> Pixel<N>
        requires { IsChannels N }
        ensures { result ≡ take N (take 3 self.entry ++ value ∷ []) }
    {
        if N == 4 {
            self.0[3] = value;
        }
        self
    }

    /// The index position of the pixel, 0 to 63, with alpha 255 if it has three channels (QOI
    /// specification 1.0, "Chunks").
    pub fn hash_index(self) -> u8
        requires { IsChannels N }
        ensures position { result ≡ hash (rgba self.entry) }
        ensures within { result < positions }
    {
        self.packed().hash_index()
    }

    /// Writes the first of a difference, a luma, an RGB and an RGBA chunk that gives this pixel
    /// after the pixel `px_prev` (QOI specification 1.0, "Chunks").
    ///
    /// The caller sees to it that the writer has room for `N` + 1 bytes. The only refusals are the
    /// writer's, and then a beginning of the chunk is written.
    pub fn encode_into<W: Writer>(&self, px_prev: Pixel<N>, writer: &mut W) -> Result<()>
        requires channels { IsChannels N }
        requires room { N + 1 ≤ W.room writer.old }
        ensures written { OnOk result ((c : Chunk) × Spells self.now px_prev.entry c
            × W.wrote writer.old (bytes_of c) writer.new) }
        ensures refused { IfErr result (λ e. W.IsFault e × (c : Chunk)
            × Spells self.now px_prev.entry c
            × WroteBeginning W.wrote writer.old (bytes_of c) writer.new) }
    {
        let px = self.packed();
        let (number, size) = spell_pixel::<N>(px_prev.packed(), px);
        let mut bytes = [0; 8];
        let end = store_chunk::<N>(&mut bytes, 0, px.number(), number, size);
        writer.write_many(&bytes[..end])
    }

    // The pixel as one number, opaque if it has three channels.
    #[inline(always)]
    pub(crate) fn packed(self) -> Packed
        requires { IsChannels N }
        ensures same { result ≡ rgba self.entry }
        ensures opaque { N ≡ 3 → result.a ≡ 255 }
    {
        Packed::new(self.r(), self.g(), self.b(), self.a_or(0xff))
    }
}
