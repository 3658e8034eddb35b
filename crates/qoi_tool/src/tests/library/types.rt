//! Channels, color spaces and headers, through the bounds of std's traits.
use crate::tests::library::support::{assert_bytes, assert_header, assert_number};
use qoi::{Channels, ColorSpace, Error, Header, Result};
use std::hash::{DefaultHasher, Hash, Hasher};

// The number, through the bound.
fn number_of<T: Into<u8>>(x: T) -> u8 {
    x.into()
}

// What the number stands for, through the bound.
fn of_number<T: TryFrom<u8, Error = Error>>(number: u8) -> Result<T> {
    T::try_from(number)
}

// The default, through the bound.
fn default_of<T: Default>() -> T {
    T::default()
}

// The hash of std's own hasher.
fn hash_of<T: Hash>(x: &T) -> u64 {
    let mut state = DefaultHasher::new();
    x.hash(&mut state);
    state.finish()
}

#[test]
fn numbers(rt: HostRuntime) {
    let channels: Channels = of_number(4).expect(&rt, "refused");
    let colorspace: ColorSpace = of_number(1).expect(&rt, "refused");
    assert!(rt; channels.is_rgba() && !channels.is_rgb());
    assert!(rt; colorspace.is_linear() && !colorspace.is_srgb());
    assert_bytes(&rt, &[channels.as_u8(), number_of(channels)], &[4, 4]);
    assert_bytes(&rt, &[colorspace.as_u8(), number_of(colorspace)], &[1, 1]);
}

#[test]
fn headers(rt: HostRuntime) {
    let header = Header {
        width: 1,
        height: 1,
        channels: default_of(),
        colorspace: default_of(),
    };
    assert!(rt; header.channels.is_rgb() && header.colorspace.is_srgb());
    assert_header(&rt, &default_of::<Header>(), &header);
    assert!(rt; hash_of(&header) == hash_of(&Header::default()));
    let other = header.with_channels(Channels::Rgba);
    assert!(rt; header != other && header != header.with_colorspace(ColorSpace::Linear));
    assert_number(&rt, other.n_pixels(), 1);
    assert_number(&rt, other.n_bytes(), 4);
    assert_number(&rt, other.encode_max_len(), 27);
}
