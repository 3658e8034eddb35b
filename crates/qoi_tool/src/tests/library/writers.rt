//! The library's writers, and an image that is encoded to a writer.
ghost use Rattle.std.specs.Prelude.{◌≤◌};

use crate::tests::library::support::examples::one_rgb_pixel;
use crate::tests::library::support::{assert_bytes, assert_number, made};
use qoi::Result;
use qoi::parts::{BytesMut, GenericWriter, Writer};
use std::process::Abort;

// Writes four bytes by the trait alone, and compares the room before and after.
fn write_four<W: Writer>(rt: &impl Abort, writer: &mut W) -> Result<()>
    requires { 4 ≤ W.room writer.old }
{
    let room = writer.capacity();
    writer.write_one(1)?;
    writer.write_many(&[2, 3, 4])?;
    assert_number(rt, writer.capacity().saturating_add(4), room);
    Ok(())
}

#[test]
fn buffers_take_bytes(rt: HostRuntime) {
    let mut buf = [0xaa; 6];
    let mut writer = BytesMut::new(&mut buf);
    assert_number(&rt, writer.capacity(), 6);
    write_four(&rt, &mut writer).expect(&rt, "refused");
    assert!(rt; writer.capacity() == 2);
    writer.write_one(5);
    writer.write_many(&[]);
    assert_number(&rt, writer.capacity(), 1);
    assert_bytes(&rt, &buf, &[1, 2, 3, 4, 5, 0xaa]);
}

#[test]
fn writers_take_bytes(rt: HostRuntime) {
    let mut sent = made::bytes(&rt, rt.alloc(), &[9]);
    let mut writer = GenericWriter::new(&mut sent);
    assert_number(&rt, writer.capacity(), usize::MAX);
    write_four(&rt, &mut writer).expect(&rt, "refused");
    assert_bytes(&rt, &sent, &[9, 1, 2, 3, 4]);
}

// A short file is one piece, and there is no flush; a writer may take less.
#[test]
fn one_piece(rt: HostRuntime) {
    let image = one_rgb_pixel(&rt, rt.alloc());
    assert_number(&rt, image.sent(&rt, rt.alloc(), 100).calls, 1);
    assert_number(&rt, image.sent(&rt, rt.alloc(), 3).calls, 9);
}
